//! One event after its verdict.

ghost use Rattle.tp_headline.specs.WorldInvariant.{WorldInvariant};
ghost use Rattle.tp_headline.specs.Happening.{Next};
ghost use Rattle.tp_event.specs.States.{world_of};
ghost use Rattle.tp_event.specs.Views.{event_of, event_reply_of};

use crate::verdict::judge;
use tp_event::{Event, Reply, State};

/// The event happens, or is refused; a refused one changes nothing.
pub(crate) fn step(state: &mut State, event: &Event) -> Reply
    requires { WorldInvariant (world_of state.old) }
    ensures { Next (world_of state.old) (event_of event.now) (event_reply_of result)
        (world_of state.new) }
{
    let change = match judge(state, event) {
        Ok(change) => change,
        Err(why) => return Reply::Refused(why),
    };
    state.happen(event, change)
}

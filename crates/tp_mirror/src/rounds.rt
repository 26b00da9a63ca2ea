//! One round.

ghost use Rattle.std.specs.Prelude.{None, IfOk, OnOk};
ghost use Rattle.tp_mirror.specs.Mirroring.{IsKept};
ghost use Rattle.tp_mirror.specs.Outcomes.{IsOutcome};

use crate::error::MirrorError;
use crate::moved::look_back;
use crate::outcome::Outcome;
use crate::placing::{put, put_again, put_back};
use crate::state::State;
use crate::taking::take_in;
use crate::workspace::{Look, Source, Workspace};

/// A round: what was moved away is read, then NOTE. Each text that is new is made a change, and then NOTE gets the
/// journal's text, if it has another one.
pub fn round<W: Workspace>(workspace: &mut W, state: &mut State) -> Result<Outcome, MirrorError>
    requires { IsKept (W.view workspace.old) state.old None }
    ensures kept { OnOk result (IsKept (W.view workspace.new) state.new None) }
    ensures outcome { IfOk result (IsOutcome W.includes (W.view workspace.new)) }
{
    let is_quiet = look_back(workspace, state)?;
    if !is_quiet {
        return Ok(Outcome::Busy);
    }
    let look = workspace.read(Source::Note)?;
    match look {
        Look::Text(text) => {
            let note = take_in(workspace, state, Source::Note, text)?;
            let outcome = put(workspace, state, note)?;
            Ok(outcome)
        }
        Look::LeftEmpty => {
            let outcome = put_back(workspace, state)?;
            Ok(outcome)
        }
        Look::Absent => {
            if state.is_away {
                let outcome = put_again(workspace, state)?;
                return Ok(outcome);
            }
            Ok(Outcome::Gone)
        }
        Look::Busy => Ok(Outcome::Busy),
        Look::Empty => Ok(Outcome::Busy),
        Look::NotText => Ok(Outcome::NotText),
    }
}

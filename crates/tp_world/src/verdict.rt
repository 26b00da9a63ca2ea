//! Whether an event may happen in a world, and else why not.

ghost use Rattle.std.specs.Prelude.{◌≡◌, IfOk, IfErr, OnOk, IsOkUnless};
ghost use Rattle.tp_headline.specs.WorldInvariant.{WorldInvariant};
ghost use Rattle.tp_headline.specs.declared.error.WorldError.TheVariants.{ActorUsed, ForeignChange, HashClash, NoEntry, NoPeer, OutOfMemory, Stopped};
ghost use Rattle.tp_headline.specs.Refusing.{RefusesHappening, MayHappen};
ghost use Rattle.tp_world.specs.Judging.{Judges, PassesBefore, clashes_in};
ghost use Rattle.tp_event.specs.Making.{IsWould};
ghost use Rattle.tp_event.specs.States.{world_of};
ghost use Rattle.tp_event.specs.Views.{event_of};

use crate::foreign::carry_made;
use crate::judging::{
    actor_of, are_running, are_there, bytes_of, called_in, edit_change_at, entry_of, is_fresh,
    is_sent, keeps_whole, peers_of, running_of,
};
use tp_change::Change;
use tp_event::{Call, Event, State};
use tp_headline::WorldError;

// Whether each peer that the event names is there.
fn has_peers(state: &State, event: &Event) -> bool
    ensures { Judges (world_of state.now) (event_of event.now) NoPeer result }
{
    are_there(&state.peers, peers_of(event))
}

// Whether the actor that the event names wasn't named before.
fn has_fresh_actor(state: &State, event: &Event) -> bool
    ensures { Judges (world_of state.now) (event_of event.now) ActorUsed result }
{
    is_fresh(&state.used, actor_of(event))
}

// Whether each change that the event brings, in bytes of any origin, was made. The only refusal is `OutOfMemory`.
fn brings_made(state: &State, event: &Event) -> Result<bool, WorldError>
    requires { WorldInvariant (world_of state.now) }
    ensures ok { IfOk result
        (λ made. Judges (world_of state.now) (event_of event.now) ForeignChange made) }
    ensures err { IsOkUnless result OutOfMemory }
{
    match bytes_of(event) {
        Some(bytes) => carry_made(state.alloc, bytes, state.made.as_slice()),
        None => Ok(true),
    }
}

// The change of the edit that the event is, or during which a peer crashes in it. The only refusal is `OutOfMemory`.
fn would_make(state: &State, event: &Event) -> Result<Option<Change>, WorldError>
    ensures ok { IfOk result (λ made. IsWould (world_of state.now) (event_of event.now) made) }
    ensures err { IsOkUnless result OutOfMemory }
{
    match called_in(event) {
        Some((n, Call::Alone(call))) => edit_change_at(&state.peers, n, &call),
        _ => Ok(None),
    }
}

// Whether a change that was made has the hash of the one that the event would make.
fn clashes(state: &State, event: &Event, change: &Option<Change>) -> bool
    ensures { result ≡ clashes_in state.now.made.items (event_of event.now) change.now }
{
    match change {
        Some(change) => state.made.has(&change.hash()) && keeps_whole(event, change),
        None => false,
    }
}

// Whether none of the peers that the event acts on or reads has stopped.
fn runs_peers(state: &State, event: &Event) -> bool
    ensures { Judges (world_of state.now) (event_of event.now) Stopped result }
{
    are_running(&state.peers, running_of(event))
}

// Whether the wire has the entry that the event names.
fn has_entry(state: &State, event: &Event) -> bool
    ensures { Judges (world_of state.now) (event_of event.now) NoEntry result }
{
    is_sent(&state.wire, entry_of(event))
}

// Why the event is refused for what it names or brings.
fn judge_brought(state: &State, event: &Event) -> Result<(), WorldError>
    requires { WorldInvariant (world_of state.now) }
    ensures ok { OnOk result
        (PassesBefore (world_of state.now) (event_of event.now) HashClash) }
    ensures err { IfErr result (λ why. RefusesHappening (world_of state.now) (event_of event.now) why) }
{
    if !has_peers(state, event) {
        return Err(WorldError::NoPeer);
    }
    if !has_fresh_actor(state, event) {
        return Err(WorldError::ActorUsed);
    }
    let made = match brings_made(state, event) {
        Ok(made) => made,
        Err(error) => return Err(error),
    };
    if !made {
        return Err(WorldError::ForeignChange);
    }
    Ok(())
}

// Why the event is refused for what it is done to. It passed the tests before.
fn judge_met(state: &State, event: &Event) -> Result<(), WorldError>
    requires { PassesBefore (world_of state.now) (event_of event.now) Stopped }
    ensures ok { OnOk result (MayHappen (world_of state.now) (event_of event.now)) }
    ensures err { IfErr result (λ why. RefusesHappening (world_of state.now) (event_of event.now) why) }
{
    if !runs_peers(state, event) {
        return Err(WorldError::Stopped);
    }
    if !has_entry(state, event) {
        return Err(WorldError::NoEntry);
    }
    Ok(())
}

// Why the event is refused for the change that it would make or for what it is done to, or else that change. It passed
// the tests before.
fn judge_making(state: &State, event: &Event) -> Result<Option<Change>, WorldError>
    requires carried { WorldInvariant (world_of state.now) }
    requires before { PassesBefore (world_of state.now) (event_of event.now) HashClash }
    ensures may { OnOk result (MayHappen (world_of state.now) (event_of event.now)) }
    ensures made { IfOk result (λ made. IsWould (world_of state.now) (event_of event.now) made) }
    ensures err { IfErr result (λ why. RefusesHappening (world_of state.now) (event_of event.now) why) }
{
    let change = match would_make(state, event) {
        Ok(change) => change,
        Err(error) => return Err(error),
    };
    if clashes(state, event, &change) {
        return Err(WorldError::HashClash);
    }
    match judge_met(state, event) {
        Ok(()) => Ok(change),
        Err(why) => Err(why),
    }
}

/// Why the event is refused; or else the change of the edit that it is, or during which a peer crashes in it.
pub(crate) fn judge(state: &State, event: &Event) -> Result<Option<Change>, WorldError>
    requires { WorldInvariant (world_of state.now) }
    ensures may { OnOk result (MayHappen (world_of state.now) (event_of event.now)) }
    ensures made { IfOk result (λ made. IsWould (world_of state.now) (event_of event.now) made) }
    ensures err { IfErr result (λ why. RefusesHappening (world_of state.now) (event_of event.now) why) }
{
    match judge_brought(state, event) {
        Ok(()) => judge_making(state, event),
        Err(why) => Err(why),
    }
}

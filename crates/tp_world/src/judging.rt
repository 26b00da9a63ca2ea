//! What an event names, and what is asked of it before it happens.

ghost use Rattle.std.specs.Prelude.{◌≡◌, false, true, MatchBool, IfOk, IsOkUnless, ◌&&◌};
ghost use Rattle.std.specs.Option.{option_map, option_to_list};
ghost use Rattle.tp_headline.specs.declared.error.WorldError.TheVariants.{OutOfMemory};
ghost use Rattle.tp_headline.specs.Event as events;
ghost use Rattle.tp_headline.specs.Refusing.{keeps_whole};
ghost use Rattle.tp_call.specs.Calls.{call_of as peer_call_of};
ghost use Rattle.tp_world.specs.Judging.{AllRun, AllThere, IsFresh, IsJustEditAt, is_named, numbers_in};
ghost use Rattle.tp_event.specs.Views.{event_call_of, event_of};

use tp_call::Call as PeerCall;
use tp_change::Change;
use tp_event::{Call, Entry, Event, Member, record_len};
use tp_headline::WorldError;
use tp_opid::Actor;

/// The peer that makes a call in an event, and the call.
pub(crate) fn called_in<'a>(event: &Event<'a>) -> Option<(usize, Call<'a>)>
    ensures { option_map (λ x. (x.0, event_call_of x.1)) result ≡ events.called_in (event_of event.now) }
{
    match event {
        Event::Call { peer, call } => Some((*peer, *call)),
        Event::Crash {
            peer,
            during: Some(call),
            ..
        } => Some((*peer, *call)),
        _ => None,
    }
}

// The peer that a call names beside the one that makes it.
fn named_by(call: &Call) -> Option<usize>
    ensures { option_to_list result ≡ events.named_by (event_call_of call.now) }
{
    match call {
        Call::Alone(PeerCall::Receive { link, .. }) => Some(link.0 as usize),
        Call::Alone(PeerCall::Generate { link }) => Some(link.0 as usize),
        Call::Alone(PeerCall::Forget { link }) => Some(link.0 as usize),
        Call::Merge { from } => Some(*from),
        _ => None,
    }
}

// The peer that a call needs beside the one that makes it.
fn needed_by(call: &Call) -> Option<usize>
    ensures { option_to_list result ≡ events.needed_by (event_call_of call.now) }
{
    match call {
        Call::Merge { from } => Some(*from),
        _ => None,
    }
}

/// The peers that an event names.
pub(crate) fn peers_of(event: &Event) -> (Option<usize>, Option<usize>)
    ensures { numbers_in result ≡ events.peers_of (event_of event.now) }
{
    match event {
        Event::Start { .. } => (None, None),
        Event::Fork { of, .. } => (Some(*of), None),
        Event::Fail { peer, .. } => (Some(*peer), None),
        Event::Call { peer, call } => (Some(*peer), named_by(call)),
        Event::Crash {
            peer,
            during: None,
            ..
        } => (Some(*peer), None),
        Event::Crash {
            peer,
            during: Some(call),
            ..
        } => (Some(*peer), named_by(call)),
    }
}

/// The peers that an event needs while they run.
pub(crate) fn running_of(event: &Event) -> (Option<usize>, Option<usize>)
    ensures { numbers_in result ≡ events.running_of (event_of event.now) }
{
    match event {
        Event::Start { .. } => (None, None),
        Event::Fork { of, .. } => (Some(*of), None),
        Event::Fail { peer, .. } => (Some(*peer), None),
        Event::Call { peer, call } => (Some(*peer), needed_by(call)),
        Event::Crash { during: None, .. } => (None, None),
        Event::Crash {
            peer,
            during: Some(call),
            ..
        } => (Some(*peer), needed_by(call)),
    }
}

/// The entry of the wire that an event names.
pub(crate) fn entry_of(event: &Event) -> Option<usize>
    ensures { option_to_list result ≡ events.wire_entries_of (event_of event.now) }
{
    match event {
        Event::Call {
            call: Call::Deliver { entry },
            ..
        } => Some(*entry),
        Event::Crash {
            during: Some(Call::Deliver { entry }),
            ..
        } => Some(*entry),
        _ => None,
    }
}

/// The bytes of any origin that an event delivers.
pub(crate) fn bytes_of<'a>(event: &Event<'a>) -> Option<&'a [u8]>
    ensures { option_map (λ bytes. bytes.now) result ≡ events.foreign_bytes_of (event_of event.now) }
{
    match event {
        Event::Call {
            call: Call::Alone(PeerCall::Receive { bytes, .. }),
            ..
        } => Some(bytes),
        Event::Crash {
            during: Some(Call::Alone(PeerCall::Receive { bytes, .. })),
            ..
        } => Some(bytes),
        _ => None,
    }
}

/// The actor that an event names.
pub(crate) fn actor_of(event: &Event) -> Option<Actor>
    ensures { result ≡ events.actor_of (event_of event.now) }
{
    match event {
        Event::Start { actor } => Some(*actor),
        Event::Fork { actor, .. } => Some(*actor),
        Event::Call { .. } => None,
        Event::Fail { .. } => None,
        Event::Crash { actor, .. } => Some(*actor),
    }
}

// Whether there is a peer with the number, if there is one.
fn is_there(members: &[Member], number: Option<usize>) -> bool
    ensures { MatchBool result (AllThere members.now (option_to_list number))
        (AllThere members.now (option_to_list number) → ⊥) }
{
    match number {
        Some(n) => n < members.len(),
        None => true,
    }
}

/// Whether the wire has the entry with the number, if there is one.
pub(crate) fn is_sent(wire: &[Entry], number: Option<usize>) -> bool
    ensures { MatchBool result (AllThere wire.now (option_to_list number))
        (AllThere wire.now (option_to_list number) → ⊥) }
{
    match number {
        Some(n) => n < wire.len(),
        None => true,
    }
}

/// Whether there is a peer with each of the numbers.
pub(crate) fn are_there(members: &[Member], numbers: (Option<usize>, Option<usize>)) -> bool
    ensures { MatchBool result (AllThere members.now (numbers_in numbers))
        (AllThere members.now (numbers_in numbers) → ⊥) }
{
    is_there(members, numbers.0) && is_there(members, numbers.1)
}

// Whether no peer with the number has stopped.
fn is_running(members: &[Member], number: Option<usize>) -> bool
    ensures { MatchBool result (AllRun members.now (option_to_list number))
        (AllRun members.now (option_to_list number) → ⊥) }
{
    match number {
        Some(n) => {
            if n < members.len() {
                let member = &members[n];
                !member.is_stopped()
            } else {
                true
            }
        }
        None => true,
    }
}

/// Whether none of the peers with the numbers has stopped.
pub(crate) fn are_running(members: &[Member], numbers: (Option<usize>, Option<usize>)) -> bool
    ensures { MatchBool result (AllRun members.now (numbers_in numbers))
        (AllRun members.now (numbers_in numbers) → ⊥) }
{
    is_running(members, numbers.0) && is_running(members, numbers.1)
}

// Whether the actor is one of those that were named.
fn is_named(used: &[Actor], actor: &Actor) -> bool
    ensures { result ≡ is_named used.now actor.now }
{
    for named in used {
        if named.is(actor) {
            return true;
        }
    }
    false
}

/// Whether the actor, if there is one, isn't one of those that were named. One pass over them.
pub(crate) fn is_fresh(used: &[Actor], actor: Option<Actor>) -> bool
    ensures { MatchBool result (IsFresh used.now actor) (IsFresh used.now actor → ⊥) }
{
    match actor {
        Some(actor) => !is_named(used, &actor),
        None => true,
    }
}

/// Whether the event keeps the whole record of the change that it would make.
pub(crate) fn keeps_whole(event: &Event, change: &Change) -> bool
    ensures { result ≡ keeps_whole (event_of event.now) change.now }
{
    match event {
        Event::Crash { kept, .. } => record_len(change) as u64 <= *kept,
        _ => true,
    }
}

/// The change that the call of the peer with the number would make; `None` where it would make none, or there is no such
/// peer. The only refusal is `OutOfMemory`.
pub(crate) fn edit_change_at(
    members: &[Member],
    n: usize,
    call: &PeerCall,
) -> Result<Option<Change>, WorldError>
    ensures ok { IfOk result
        (λ made. IsJustEditAt members.now n (peer_call_of call.now) made) }
    ensures err { IsOkUnless result OutOfMemory }
{
    if n < members.len() {
        let member = &members[n];
        member.edit_change(call)
    } else {
        Ok(None)
    }
}

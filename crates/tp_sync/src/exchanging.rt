//! Two documents exchange what they have.

ghost use Rattle.std.specs.Prelude.{◌≡◌, None, IfNone, IfOk, IfErr, IfSome, MatchOption, OnOk};
ghost use Rattle.tp_sync.specs.NextMessage.{HasNothingToSend};
ghost use Rattle.tp_sync.specs.Due.{is_truncated};
ghost use Rattle.tp_sync.specs.Exchange.{side, PassesOrRests, Exchanges, RefusesExchange, IsOtherOnly, IsNothing, RefusesPass, PassesMessage, Replies, RefusesReply, ExchangeStops};
ghost use Rattle.tp_sync.specs.State.{new_sync_state};

use crate::generating::send;
use crate::receiving::receive;
use crate::state::SyncState;
use std::alloc::Global;
use tp_document::{Applied, Document};
use tp_message::SyncError;
use tp_rga::Sequence;

/// What an exchange did.
#[derive(Drop)]
pub struct Exchanged {
    /// What the second message did, which the first document received.
    pub into_a: Applied,
    /// What the third message did, which the second document received; empty where there was none.
    pub into_b: Applied,
    /// Whether a message left out changes that were due, since it had enough.
    pub cut: bool,
}

// What became of a message that was received at once.
#[derive(Drop)]
struct Passed {
    // What it did.
    applied: Applied,
    // Whether it left out changes that were due.
    cut: bool,
}

// One side makes a message, and the other receives it; `None` where there is nothing to be said.
fn pass<S: Sequence>(
    alloc: Global,
    from: &Document<S>,
    ours: &mut SyncState,
    to: &mut Document<S>,
    theirs: &mut SyncState,
) -> Result<Option<Passed>, SyncError>
    ensures id { to.new.id ≡ to.old.id }
    ensures passes { IfOk result (λ o. MatchOption o
        (HasNothingToSend from.now.applied ours.old)
        (λ p. PassesMessage (side from.now ours.old) ours.new (side to.old theirs.old)
        (side to.new theirs.new) p.applied)) }
    ensures rests { IfOk result (λ o. IfNone o ((to.new ≡ to.old)
        × (ours.new ≡ ours.old) × (theirs.new ≡ theirs.old))) }
    ensures cut { IfOk result (λ o. IfSome o
        (λ p. p.cut ≡ is_truncated from.now.applied ours.old)) }
    ensures err { IfErr result (λ e. RefusesPass (side from.now ours.old) to.old e to.new) }
{
    match send(alloc, from, ours)? {
        Some(sent) => {
            let applied = receive(to, theirs, sent.message)?;
            Ok(Some(Passed {
                applied,
                cut: sent.cut,
            }))
        }
        None => Ok(None),
    }
}

// Nothing entered, waits or was refused.
fn nothing(alloc: Global) -> Applied
    ensures { IsNothing result }
{
    Applied {
        applied: Vec::new(alloc),
        held: Vec::new(alloc),
        refused: Vec::new(alloc),
    }
}

// One side, which has declared nothing to the other that counts yet, makes a message, and the other receives it.
fn speak<S: Sequence>(
    alloc: Global,
    from: &Document<S>,
    ours: &mut SyncState,
    to: &mut Document<S>,
    theirs: &mut SyncState,
) -> Result<Passed, SyncError>
    requires { ours.old.declared ≡ None }
    ensures id { to.new.id ≡ to.old.id }
    ensures passes { IfOk result (λ p. PassesMessage (side from.now ours.old) ours.new
        (side to.old theirs.old) (side to.new theirs.new) p.applied) }
    ensures declared { OnOk result (theirs.old.declared ≡ None → theirs.new.declared ≡ None) }
    ensures cut { IfOk result (λ p. p.cut ≡ is_truncated from.now.applied ours.old) }
    ensures err { IfErr result (λ e. RefusesPass (side from.now ours.old) to.old e to.new) }
{
    match pass(alloc, from, ours, to, theirs) {
        Ok(Some(passed)) => Ok(passed),
        Ok(None) => unreachable!(),
        Err(error) => Err(error),
    }
}

// One side makes a last message, which the other receives, or has nothing to say.
fn close<S: Sequence>(
    alloc: Global,
    from: &Document<S>,
    ours: &mut SyncState,
    to: &mut Document<S>,
    theirs: &mut SyncState,
) -> Result<Passed, SyncError>
    ensures id { to.new.id ≡ to.old.id }
    ensures closes { IfOk result (λ p. PassesOrRests (side from.now ours.old)
        (side to.old theirs.old) (side to.new theirs.new) p.applied) }
    ensures cut { IfOk result (λ p. p.cut ≡ is_truncated from.now.applied ours.old) }
    ensures err { IfErr result (λ e. RefusesPass (side from.now ours.old) to.old e to.new) }
{
    match pass(alloc, from, ours, to, theirs) {
        Ok(Some(passed)) => Ok(passed),
        Ok(None) => Ok(Passed {
            applied: nothing(alloc),
            cut: false,
        }),
        Err(error) => Err(error),
    }
}

// The second and the third message.
fn reply<S: Sequence>(
    alloc: Global,
    a: &mut Document<S>,
    ours: &mut SyncState,
    b: &mut Document<S>,
    theirs: &mut SyncState,
) -> Result<Exchanged, SyncError>
    requires { theirs.old.declared ≡ None }
    ensures a_id { a.new.id ≡ a.old.id }
    ensures b_id { b.new.id ≡ b.old.id }
    ensures ok { IfOk result (λ r. Replies (side a.old ours.old) (side b.old theirs.old)
        a.new b.new r) }
    ensures err { IfErr result (λ e. RefusesReply (side a.old ours.old) (side b.old theirs.old)
        e a.new b.new) }
{
    match speak(alloc, b, theirs, a, ours) {
        Ok(into_a) => match close(alloc, a, ours, b, theirs) {
            Ok(into_b) => Ok(Exchanged {
                into_a: into_a.applied,
                into_b: into_b.applied,
                cut: into_a.cut || into_b.cut,
            }),
            Err(error) => Err(error),
        },
        Err(error) => Err(error),
    }
}

// All messages, from fresh states.
fn exchange_from<S: Sequence>(
    alloc: Global,
    a: &mut Document<S>,
    ours: &mut SyncState,
    b: &mut Document<S>,
    theirs: &mut SyncState,
) -> Result<Exchanged, SyncError>
    requires ours { ours.old ≡ new_sync_state }
    requires theirs { theirs.old ≡ new_sync_state }
    ensures a_id { a.new.id ≡ a.old.id }
    ensures b_id { b.new.id ≡ b.old.id }
    ensures ok { IfOk result (λ r. Exchanges a.old b.old a.new b.new r) }
    ensures err { IfErr result (λ e. ExchangeStops a.old b.old a.new b.new e) }
{
    match speak(alloc, a, ours, b, theirs) {
        Ok(_begun) => reply(alloc, a, ours, b, theirs),
        Err(error) => Err(error),
    }
}

/// Two documents exchange what they have: from fresh states at most three messages pass, each received at once. The first
/// tells the second document's peer the heads of the first; the second carries what the first document lacks, and the third
/// what the second lacks. There is no third where nothing is to be said.
///
/// Where no message left out changes, nothing was refused but as `Known`, and nothing waited before, both have the union of
/// what they had: see [`laws`](crate::laws). Where one did, a further exchange goes on.
///
/// `OtherDocument` exactly where the identifiers differ: nothing changes. The other refusals are those of
/// [`generate`](crate::generate) and [`receive`](crate::receive); each document holds then what the messages so far gave it.
/// The cost is that of these calls.
pub fn exchange<S: Sequence>(
    alloc: Global,
    a: &mut Document<S>,
    b: &mut Document<S>,
) -> Result<Exchanged, SyncError>
    ensures ids { (a.new.id ≡ a.old.id) × (b.new.id ≡ b.old.id) }
    ensures ok { IfOk result (λ r. Exchanges a.old b.old a.new b.new r) }
    ensures other { IsOtherOnly result a.old.id b.old.id }
    ensures err { IfErr result (λ e. RefusesExchange a.old b.old e a.new b.new) }
{
    if !a.id().is(&b.id()) {
        return Err(SyncError::OtherDocument);
    }
    let mut ours = SyncState::new(alloc);
    let mut theirs = SyncState::new(alloc);
    exchange_from(alloc, a, &mut ours, b, &mut theirs)
}

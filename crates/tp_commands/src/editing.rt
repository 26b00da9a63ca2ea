//! What is done to a journal.

ghost use Rattle.std.specs.Prelude.{◌≡◌, ◌⊎◌, [], length, IfOk, IfErr, OnOk};
ghost use Rattle.std.specs.Str.{chars};
ghost use Rattle.tp_journal.specs.Journal.{no_device};
ghost use Rattle.tp_recovery.specs.Layout.{journal as journal_bytes};
ghost use Rattle.tp_recovery.specs.Recovery.{Recovers};
ghost use Rattle.tp_recovery.specs.Refusals.{IsJournalFault};
ghost use Rattle.tp_peer.specs.Opening.{IsUnused, Reopens};
ghost use Rattle.tp_peer.specs.Appending.{journal_state};
ghost use Rattle.tp_peer.specs.PeerStep.{PeerStep, Merge, Merged};
ghost use Rattle.tp_peer.specs.Taking.{Report};
ghost use Rattle.tp_commands.specs.Editing.{EditsJournal, TakesJournal};
ghost use Rattle.tp_commands.specs.Refusing.{RefusesBeginning, RefusesEditing, RefusesMerging, RefusesJournalOpening, RefusesCall};
ghost use Rattle.tp_store.specs.declared.error.StoreError.TheVariants.{OutOfMemory as Lack};

use crate::error::CommandError;
use crate::reading::Recovery;
use std::alloc::Global;
use tp_edit::Splice;
use tp_journal::{Journal, ReadJournal, Recovering};
use tp_opid::{Actor, DocId, Hash};
use tp_peer::{Peer, PeerSequence};

/// Begins the journal of a document. One that has a header or other bytes is refused as `JournalNotEmpty`.
pub fn begin<J: Journal>(
    alloc: Global,
    journal: J,
    id: DocId,
    actor: Actor,
) -> Result<J, CommandError>
    ensures unused { OnOk result (IsUnused (J.content journal)) }
    ensures begun { IfOk result (λ j. J.content j ≡ journal_bytes id []) }
    ensures err { IfErr result
        (λ e. RefusesBeginning (journal_state (J.content journal) (J.device journal)) id e) }
{
    match Peer::create(alloc, journal, id, actor) {
        Ok(peer) => Ok(peer.stop()),
        Err(unopened) => Err(CommandError::from(unopened.error)),
    }
}

/// Makes one change under the actor, which is appended to the journal; it comes with what its content recovered to. `None`
/// where the splice is in range and changes nothing.
pub fn edit<J: Journal>(
    alloc: Global,
    opened: (J, Recovery),
    actor: Actor,
    splice: Splice,
    time: u64,
    message: &str,
) -> Result<(J, Option<Hash>), CommandError>
    requires recovers { IfOk opened.1 (λ r.
        Recovers (J.content opened.0) r.document.id r.document.applied r.keep
        × (r.document.waiting ≡ [])) }
    requires refused { IfErr opened.1 (λ e. (e ≡ Lack) ⊎ IsJournalFault (J.content opened.0) e) }
    ensures edits { IfOk result (λ r. EditsJournal (J.content opened.0) actor splice.entry time
        (chars message.now) r.1 (J.content r.0)) }
    ensures err { IfErr result
        (λ e. RefusesEditing (journal_state (J.content opened.0) (J.device opened.0)) actor splice.entry
        time (chars message.now) e) }
{
    match reopen(alloc, opened, actor) {
        Ok(mut peer) => {
            let made = peer.edit(&[splice], time, message);
            let journal = peer.stop();
            match made {
                Ok(made) => Ok((journal, made)),
                Err(error) => Err(CommandError::from(error)),
            }
        }
        Err(error) => Err(error),
    }
}

/// A peer on the journal, which comes with what its content recovered to.
pub fn reopen<J: Journal>(
    alloc: Global,
    opened: (J, Recovery),
    actor: Actor,
) -> Result<Peer<J>, CommandError>
    requires recovers { IfOk opened.1 (λ r.
        Recovers (J.content opened.0) r.document.id r.document.applied r.keep
        × (r.document.waiting ≡ [])) }
    requires refused { IfErr opened.1 (λ e. (e ≡ Lack) ⊎ IsJournalFault (J.content opened.0) e) }
    ensures ok { IfOk result
        (λ p. Reopens (journal_state (J.content opened.0) (J.device opened.0)) actor p) }
    ensures err { IfErr result
        (λ e. RefusesJournalOpening (journal_state (J.content opened.0) (J.device opened.0)) actor e) }
{
    let (journal, recovered) = opened;
    match Peer::open_recovered(alloc, journal, recovered, actor) {
        Ok(peer) => Ok(peer),
        Err(unopened) => Err(CommandError::from(unopened.error)),
    }
}

// A peer on the journal of the bytes that came.
fn reopen_read(
    alloc: Global,
    journal: Recovering<PeerSequence>,
    actor: Actor,
) -> Result<Peer<ReadJournal>, CommandError>
    ensures ok { IfOk result (λ p. Reopens (journal_state journal no_device) actor p) }
    ensures err { IfErr result (λ e. RefusesJournalOpening (journal_state journal no_device) actor e) }
{
    reopen(alloc, ReadJournal::finish(journal), actor)
}

// Merges the other peer's changes, and ends it. Answers how many entered.
fn merge_from<J: Journal>(
    peer: &mut Peer<J>,
    other: Peer<ReadJournal>,
) -> Result<usize, CommandError>
    ensures ok { IfOk result (λ count. (report : Report)
        × PeerStep peer.old (Merge other) (Merged report) peer.new
        × (count ≡ length report.applied)) }
    ensures err { IfErr result (λ e. RefusesCall peer.old (Merge other) e) }
{
    let merged = peer.merge(&other);
    drop(other);
    match merged {
        Ok(merged) => Ok(merged.applied.len()),
        Err(error) => Err(CommandError::from(error)),
    }
}

/// Merges the changes of another journal, whose bytes came and which is opened under the actor, and ends the peer. Answers
/// its journal and how many entered. Of the other journal no byte is held.
pub fn merge<J: Journal>(
    alloc: Global,
    mut peer: Peer<J>,
    other: Recovering<PeerSequence>,
    actor: Actor,
) -> Result<(J, usize), CommandError>
    ensures takes { IfOk result (λ r. TakesJournal peer other actor r.1 (J.content r.0)) }
    ensures err { IfErr result (λ e. RefusesMerging peer (journal_state other no_device) actor e) }
{
    match reopen_read(alloc, other, actor) {
        Ok(other) => {
            let merged = merge_from(&mut peer, other);
            let journal = peer.stop();
            match merged {
                Ok(count) => Ok((journal, count)),
                Err(error) => Err(error),
            }
        }
        Err(error) => Err(error),
    }
}

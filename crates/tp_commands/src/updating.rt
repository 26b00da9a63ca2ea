//! A text from elsewhere, which becomes the text of a journal.

ghost use Rattle.std.specs.Prelude.{◌≡◌, ◌⊎◌, ◌<◌, ◌≤◌, [], drop, length, take, IfErr, IfOk, IsOkUnless, OnErr, OnOk, false};
ghost use Rattle.std.specs.List.{All};
ghost use Rattle.std.specs.Str.{chars};
ghost use Rattle.std.specs.Str.Lossy.{utf8_valid_len};
ghost use Rattle.tp_document.specs.Editing.{DoesSplices};
ghost use Rattle.tp_recovery.specs.Recovery.{Recovers};
ghost use Rattle.tp_recovery.specs.Refusals.{IsJournalFault};
ghost use Rattle.tp_peer.specs.Appending.{journal_state};
ghost use Rattle.tp_store.specs.declared.error.StoreError.TheVariants.{OutOfMemory as Lack};
ghost use Rattle.tp_edit.specs.Text.{IsTextOf};
ghost use Rattle.tp_commands.specs.declared.error.CommandError.TheVariants.{NotText};
ghost use Rattle.tp_commands.specs.HalfWay.{DoesFirst, stopping_place};
ghost use Rattle.tp_commands.specs.Updating.{HasNoCharacters, IsFullBefore, IsNotImported, IsNotRewritten, IsNotUpdated, MakesEdits, MakesNext, MakesText, RefusesNextEdit, StopsEdits, UpdatesJournal};
ghost use Rattle.tp_edit.specs.Splices.{count_of_splice, total_count};

use crate::cutting::differences_in_parts;
use crate::editing::reopen;
use crate::error::{CommandError, UpdateError};
use crate::reading::Recovery;
use std::alloc::Global;
use std::str;
use tp_change::MAX_OPS;
use tp_edit::Splice;
use tp_journal::{Journal, Recovered};
use tp_opid::{Actor, Hash};
use tp_peer::{Peer, PeerSequence};

/// The text in a file of these bytes. Bytes that aren't UTF-8 are refused as `NotText`, with how many are before the first that
/// aren't.
pub fn text_in_file(bytes: &[u8]) -> Result<&str, CommandError>
    ensures ok { IfOk result (λ text. text.now ≡ bytes.now) }
    ensures err { IfErr result (λ e. e ≡ NotText (utf8_valid_len bytes.now)) }
{
    match str::from_utf8(bytes) {
        Ok(text) => Ok(text),
        Err(fault) => Err(CommandError::NotText {
            at: fault.valid_up_to() as u64,
        }),
    }
}

// Of how many of the splices one change is made: as many as it may have the operations of, and one at least.
pub(crate) fn group_len(splices: &[Splice]) -> usize
    requires { 0 < length splices.now }
    ensures some { 0 < result }
    ensures within { result ≤ length splices.now }
    ensures full { IsFullBefore (take result splices.now) (drop result splices.now) }
{
    let mut count: usize = 0;
    for at in 0..splices.len() {
        let splice = &splices[at];
        count = count
            .saturating_add(splice.del)
            .saturating_add(splice.inserted_count());
        if count > MAX_OPS && at > 0 {
            return at;
        }
    }
    splices.len()
}

// Makes one edit, of the splices that come next, and puts its hash to the others.
fn edit_once<J: Journal>(
    peer: &mut Peer<J>,
    hashes: &mut Vec<Hash>,
    splices: &[Splice],
    time: u64,
    message: &str,
) -> Result<(), CommandError>
    requires runs { peer.old.stopped ≡ false }
    requires some { 0 < total_count splices.now }
    ensures ok { OnOk result (MakesNext splices.now time (chars message.now)
        hashes.old.items peer.old hashes.new.items peer.new) }
    ensures text { OnOk result (DoesSplices peer.old.applied peer.new.applied splices.now) }
    ensures err { IfErr result (λ e. RefusesNextEdit peer.old splices.now time (chars message.now) e) }
    ensures left { OnErr result ((peer.new.applied ≡ peer.old.applied)
        ⊎ DoesSplices peer.old.applied peer.new.applied splices.now) }
{
    match peer.edit(splices, time, message) {
        Ok(Some(hash)) => Ok(hashes.push(hash)?),
        Ok(None) => Ok(()),
        Err(error) => Err(CommandError::from(error)),
    }
}

// The refusal of a change, where those of the splices before `from` were made.
pub(crate) fn stopped_at(error: CommandError, splices: &[Splice], from: usize) -> UpdateError
    requires { from < length splices.now }
    ensures error { result.error ≡ error }
    ensures place { result.place
        ≡ stopping_place (take from splices.now) (drop from splices.now) }
{
    UpdateError {
        error,
        place: match from {
            0 => None,
            _ => Some(splices[from].at),
        },
    }
}

// Makes the edits of the splices, in turn, by as few changes as it takes. Answers their hashes.
fn edit_all<J: Journal>(
    alloc: Global,
    peer: &mut Peer<J>,
    splices: &[Splice],
    time: u64,
    message: &str,
) -> Result<Vec<Hash>, UpdateError>
    requires runs { peer.old.stopped ≡ false }
    requires some { All (λ s. 0 < count_of_splice s) splices.now }
    ensures ok { IfOk result (λ hashes.
        MakesEdits peer.old splices.now [] time (chars message.now) hashes.items peer.new) }
    ensures text { OnOk result (DoesSplices peer.old.applied peer.new.applied splices.now) }
    ensures err { IfErr result (λ e. StopsEdits peer.old splices.now time (chars message.now) e) }
    ensures left { IfErr result
        (λ e. DoesFirst peer.old.applied peer.new.applied splices.now e.place) }
{
    let mut hashes = Vec::new(alloc);
    let mut from = 0;
    while from < splices.len() {
        let end = from + group_len(&splices[from..]);
        match edit_once(peer, &mut hashes, &splices[from..end], time, message) {
            Ok(()) => from = end,
            Err(error) => return Err(stopped_at(error, splices, from)),
        }
    }
    Ok(hashes)
}

// Makes the peer's text another one, by their differences.
#[tactic(auto, using(crate::proofs::Updates::all_some))]
fn rewrite<J: Journal>(
    alloc: Global,
    peer: &mut Peer<J>,
    text: &str,
    time: u64,
    message: &str,
) -> Result<Vec<Hash>, UpdateError>
    requires { peer.old.stopped ≡ false }
    ensures ok { IfOk result (λ hashes.
        MakesText peer.old (chars text.now) time (chars message.now) hashes.items peer.new) }
    ensures err { IfErr result
        (λ e. IsNotRewritten peer.old (chars text.now) time (chars message.now) e peer.new) }
{
    let before = peer.document().text()?;
    let splices = differences_in_parts(alloc, before.as_str(), text)?;
    edit_all(alloc, peer, &splices, time, message)
}

/// Makes the journal's text this one, under the actor, by changes that are appended to the journal; it comes with what its
/// content recovered to. Answers their hashes: of one change where the text's differences are at most 65,536 operations, and else
/// of as many as it takes; of none where the text is this one already. Where it stops, a beginning of them is made, and the
/// refusal says how far.
pub(crate) fn update_now<J: Journal>(
    alloc: Global,
    opened: (J, Recovery),
    actor: Actor,
    text: &str,
    time: u64,
    message: &str,
) -> Result<(J, Vec<Hash>), UpdateError>
    requires recovers { IfOk opened.1 (λ r.
        Recovers (J.content opened.0) r.document.id r.document.applied r.keep
        × (r.document.waiting ≡ [])) }
    requires refused { IfErr opened.1 (λ e. (e ≡ Lack) ⊎ IsJournalFault (J.content opened.0) e) }
    ensures updates { IfOk result (λ r. UpdatesJournal (J.content opened.0) actor (chars text.now)
        time (chars message.now) r.1.items (J.content r.0)) }
    ensures err { IfErr result
        (λ e. IsNotUpdated (journal_state (J.content opened.0) (J.device opened.0)) actor
        (chars text.now) time (chars message.now) e) }
{
    match reopen(alloc, opened, actor) {
        Ok(mut peer) => {
            let made = rewrite(alloc, &mut peer, text, time, message);
            let journal = peer.stop();
            match made {
                Ok(hashes) => Ok((journal, hashes)),
                Err(error) => Err(error),
            }
        }
        Err(error) => Err(UpdateError::from(error)),
    }
}

/// Makes the text of a journal this one, as [`update`](crate::update), where its text is empty; another is refused as `NotEmpty`.
pub fn import<J: Journal>(
    alloc: Global,
    opened: (J, Recovered<PeerSequence>),
    actor: Actor,
    text: &str,
    time: u64,
    message: &str,
) -> Result<(J, Vec<Hash>), UpdateError>
    requires recovers { Recovers (J.content opened.0) opened.1.document.id
        opened.1.document.applied opened.1.keep }
    requires none_waits { opened.1.document.waiting ≡ [] }
    ensures empty { OnOk result (HasNoCharacters (J.content opened.0)) }
    ensures updates { IfOk result (λ r. UpdatesJournal (J.content opened.0) actor (chars text.now)
        time (chars message.now) r.1.items (J.content r.0)) }
    ensures err { IfErr result
        (λ e. IsNotImported (journal_state (J.content opened.0) (J.device opened.0)) actor
        (chars text.now) time (chars message.now) e) }
{
    let (journal, recovered) = opened;
    match has_text(&recovered) {
        Ok(false) => update_now(alloc, (journal, Ok(recovered)), actor, text, time, message),
        Ok(true) => {
            drop(journal);
            drop(recovered);
            Err(UpdateError::from(CommandError::NotEmpty))
        }
        Err(error) => {
            drop(journal);
            drop(recovered);
            Err(UpdateError::from(error))
        }
    }
}

// Whether the text of what was recovered has a character.
fn has_text(recovered: &Recovered<PeerSequence>) -> Result<bool, CommandError>
    ensures ok { IfOk result (λ has. has ≡ false → IsTextOf recovered.now.document.applied []) }
    ensures err { IsOkUnless result CommandError.OutOfMemory }
{
    let text = recovered.document.text()?;
    Ok(!text.as_str().is_empty())
}

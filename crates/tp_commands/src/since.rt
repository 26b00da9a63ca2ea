//! A text that was taken out of a journal earlier, and came back changed.

ghost use Rattle.std.specs.Prelude.{◌≡◌, ◌⊎◌, ◌<◌, [], IfErr, IfOk, OnErr, OnOk, false};
ghost use Rattle.std.specs.List.{All};
ghost use Rattle.std.specs.Str.{chars};
ghost use Rattle.tp_document.specs.Editing.{DoesSplices, asking};
ghost use Rattle.tp_edit.specs.Splices.{count_of_splice, total_count};
ghost use Rattle.tp_history.specs.Past.{past};
ghost use Rattle.tp_peer.specs.Appending.{journal_state};
ghost use Rattle.tp_recovery.specs.Recovery.{Recovers};
ghost use Rattle.tp_recovery.specs.Refusals.{IsJournalFault};
ghost use Rattle.tp_store.specs.declared.error.StoreError.TheVariants.{OutOfMemory as Lack};
ghost use Rattle.tp_commands.specs.Since.{DoesFirstAt, GrowsAlone, IsNotRewrittenAt, IsNotUpdatedFrom, IsNotUpdatedSince, LeavesOrDoes, MakesEditsAt, MakesNextAt, MakesTextAt, RefusesNextAt, StopsEditsAt, UpdatesFrom, UpdatesSince};

use crate::cutting::differences_in_parts;
use crate::editing::reopen;
use crate::error::{CommandError, UpdateError};
use crate::reading::{Recovery, earlier_text};
use crate::updating::{group_len, stopped_at, update_now};
use std::alloc::Global;
use tp_edit::Splice;
use tp_journal::Journal;
use tp_opid::{Actor, Hash};
use tp_peer::Peer;

/// What changes say of themselves beside what they change.
#[derive(Clone, Copy)]
pub struct Metadata<'a> {
    /// The actor that makes them.
    pub actor: Actor,
    /// Their time.
    pub time: u64,
    /// Their message.
    pub message: &'a str,
}

// Makes one edit, of the splices that come next, on the last change that was made so, and puts its hash to the others.
#[tactic(auto, using(crate::proofs::GrowthLaws::edit_grows))]
fn edit_on<J: Journal>(
    peer: &mut Peer<J>,
    on: &mut Vec<Hash>,
    hashes: &mut Vec<Hash>,
    splices: &[Splice],
    by: &Metadata<'_>,
) -> Result<(), CommandError>
    requires runs { peer.old.stopped ≡ false }
    requires some { 0 < total_count splices.now }
    ensures ok { OnOk result (MakesNextAt splices.now by.now.actor by.now.time (chars by.now.message.now)
        on.old.items hashes.old.items peer.old on.new.items hashes.new.items peer.new) }
    ensures text { OnOk result (DoesSplices (past peer.old.applied on.old.items)
        (past peer.new.applied on.new.items) splices.now) }
    ensures grows { GrowsAlone peer.old peer.new }
    ensures err { IfErr result (λ e. RefusesNextAt peer.old on.old.items
        (asking by.now.actor splices.now by.now.time (chars by.now.message.now)) e) }
    ensures left { OnErr result (LeavesOrDoes peer.old on.old.items splices.now peer.new) }
{
    match peer.edit_at(on, by.actor, splices, by.time, by.message) {
        Ok(Some(hash)) => {
            on.clear();
            on.push(hash)?;
            Ok(hashes.push(hash)?)
        }
        Ok(None) => Ok(()),
        Err(error) => Err(CommandError::from(error)),
    }
}

// Makes the edits of the splices, in turn, at the hashes, by as few changes as it takes. Answers their hashes, and leaves that of
// the last in place of those.
fn edit_all_at<J: Journal>(
    alloc: Global,
    peer: &mut Peer<J>,
    on: &mut Vec<Hash>,
    splices: &[Splice],
    by: &Metadata<'_>,
) -> Result<Vec<Hash>, UpdateError>
    requires runs { peer.old.stopped ≡ false }
    requires some { All (λ s. 0 < count_of_splice s) splices.now }
    ensures ok { IfOk result (λ hashes. MakesEditsAt peer.old on.old.items by.now.actor splices.now []
        by.now.time (chars by.now.message.now) on.new.items hashes.items peer.new) }
    ensures text { OnOk result (DoesSplices (past peer.old.applied on.old.items)
        (past peer.new.applied on.new.items) splices.now) }
    ensures grows { GrowsAlone peer.old peer.new }
    ensures err { IfErr result (λ e. StopsEditsAt peer.old on.old.items by.now.actor splices.now
        by.now.time (chars by.now.message.now) e) }
    ensures left { IfErr result (λ e. DoesFirstAt (past peer.old.applied on.old.items)
        peer.new.applied splices.now e.place) }
{
    let mut hashes = Vec::new(alloc);
    let mut from = 0;
    while from < splices.len() {
        let end = from + group_len(&splices[from..]);
        match edit_on(peer, on, &mut hashes, &splices[from..end], by) {
            Ok(()) => from = end,
            Err(error) => return Err(stopped_at(error, splices, from)),
        }
    }
    Ok(hashes)
}

/// Makes the peer's text at the hashes another one, by their differences, as [`update`](crate::update) with heads does. Answers
/// the hashes of the changes: of none where the text was this one. Where it stops, a beginning of them is made, and the refusal
/// says how far.
#[tactic(auto, using(crate::proofs::GrowthLaws::same_grows))]
pub fn rewrite_at<J: Journal>(
    alloc: Global,
    peer: &mut Peer<J>,
    since: &[Hash],
    text: &str,
    by: &Metadata<'_>,
) -> Result<Vec<Hash>, UpdateError>
    requires { peer.old.stopped ≡ false }
    ensures ok { IfOk result (λ hashes. MakesTextAt peer.old since.now by.now.actor
        (chars text.now) by.now.time (chars by.now.message.now) hashes.items peer.new) }
    ensures grows { GrowsAlone peer.old peer.new }
    ensures err { IfErr result (IsNotRewrittenAt peer.old since.now by.now.actor (chars text.now)
        by.now.time (chars by.now.message.now) peer.new) }
{
    let before = earlier_text(peer.document(), since)?;
    let splices = differences_in_parts(alloc, before.as_str(), text)?;
    let mut on = since.to_vec(alloc)?;
    match edit_all_at(alloc, peer, &mut on, &splices, by) {
        Ok(hashes) => Ok(hashes),
        Err(error) => Err(error),
    }
}

// Makes the journal's text at the heads this one, beside what came since; it comes with what its content recovered to.
fn update_since<J: Journal>(
    alloc: Global,
    opened: (J, Recovery),
    since: &[Hash],
    text: &str,
    by: &Metadata<'_>,
) -> Result<(J, Vec<Hash>), UpdateError>
    requires recovers { IfOk opened.1 (λ r.
        Recovers (J.content opened.0) r.document.id r.document.applied r.keep
        × (r.document.waiting ≡ [])) }
    requires refused { IfErr opened.1 (λ e. (e ≡ Lack) ⊎ IsJournalFault (J.content opened.0) e) }
    ensures updates { IfOk result (λ r. UpdatesSince (J.content opened.0) since.now by.now.actor
        (chars text.now) by.now.time (chars by.now.message.now) r.1.items (J.content r.0)) }
    ensures err { IfErr result
        (IsNotUpdatedSince (journal_state (J.content opened.0) (J.device opened.0)) since.now
        by.now.actor (chars text.now) by.now.time (chars by.now.message.now)) }
{
    match reopen(alloc, opened, by.actor) {
        Ok(mut peer) => {
            let made = rewrite_at(alloc, &mut peer, since, text, by);
            let journal = peer.stop();
            match made {
                Ok(hashes) => Ok((journal, hashes)),
                Err(error) => Err(error),
            }
        }
        Err(error) => Err(UpdateError::from(error)),
    }
}

/// Makes the journal's text this one, by changes that are appended to the journal; it comes with what its content recovered
/// to. Without heads it is the text now that becomes this one. With heads it is the text at these: the changes are on these
/// heads alone, so what came since is merged with them, and at the last of them the text is this one.
///
/// Answers the hashes of the changes: of one where the differences of both texts are at most 65,536 operations, and else of as
/// many as it takes, each on the one before it; of none where the text was this one. A head that isn't the hash of a change is
/// refused as `UnknownHead`. Where it stops, a beginning of the changes is made, and the refusal says how far.
///
/// With heads it costs a copy of their past for the first change, beside the differences.
pub fn update<J: Journal>(
    alloc: Global,
    opened: (J, Recovery),
    since: &[Hash],
    text: &str,
    by: &Metadata<'_>,
) -> Result<(J, Vec<Hash>), UpdateError>
    requires recovers { IfOk opened.1 (λ r.
        Recovers (J.content opened.0) r.document.id r.document.applied r.keep
        × (r.document.waiting ≡ [])) }
    requires refused { IfErr opened.1 (λ e. (e ≡ Lack) ⊎ IsJournalFault (J.content opened.0) e) }
    ensures updates { IfOk result (λ r. UpdatesFrom since.now (J.content opened.0) by.now.actor
        (chars text.now) by.now.time (chars by.now.message.now) r.1.items (J.content r.0)) }
    ensures err { IfErr result
        (IsNotUpdatedFrom since.now (journal_state (J.content opened.0) (J.device opened.0))
        by.now.actor (chars text.now) by.now.time (chars by.now.message.now)) }
{
    match since {
        [] => update_now(alloc, opened, by.actor, text, by.time, by.message),
        _ => update_since(alloc, opened, since, text, by),
    }
}

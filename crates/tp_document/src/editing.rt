//! Edits of a document.

ghost use Rattle.std.specs.Prelude.{◌≡◌, ◌+◌, ◌≤◌, ◌<◌, ◌^◌, false, true, length, Ok, Err, Some, None, encode_utf8_all, MatchResult, MatchOption, IfOk, IsTrue};
ghost use Rattle.tp_document.specs.Common.{chars, most_changes, AllInRange, total_count, records_of_edit, visible_ids, visible_of, has, hash_of, all_scalars, next_counter};
ghost use Rattle.tp_layout.specs.declared.parts.ChangeParts.{ChangeParts as Parts};
ghost use Rattle.tp_history.specs.Heads as head;
ghost use Rattle.tp_document.specs.Editing.{asking, RefusesMaking, AsksNothing, IsAcceptedEdit, EditsTo, DoesSplices};
ghost use Rattle.tp_document.specs.Making.{parts_made, IsAllowed, IsWithinLimits, IsWithinSize, IsShut};
ghost use Rattle.tp_snapshot.specs.Showing.{DocumentInvariant};

use crate::document::Document;
use crate::error::DocError;
use crate::making::{make_change, next_seq, validate_splices};
use std::alloc::{AllocError, Global};
use tp_change::{COUNTERS_END, Change, ChangeParts, MAX_DEPS, MAX_MESSAGE_BYTES};
use tp_edit::{Splice, records};
use tp_graph::{Graph, MOST_CHANGES};
use tp_list::{Items, Text, array_len};
use tp_opid::{Actor, Hash};
use tp_rga::Sequence;

// How many bytes a text has.
fn byte_count(text: &str) -> usize
    ensures count { result ≡ length (encode_utf8_all (chars text.now)) }
    ensures scalars { IsTrue (all_scalars (chars text.now)) }
{
    text.len()
}

// The parts of the change of an edit.
fn parts_of<S: Sequence>(
    alloc: Global,
    sequence: &S,
    deps: &[Hash],
    actor: Actor,
    seq: u64,
    start: u64,
    splices: &[Splice],
    time: u64,
    message: &str,
) -> Result<ChangeParts, AllocError>
    requires in_range { AllInRange
        (length (visible_of (S.removals sequence.now) (S.placed sequence.now))) splices.now }
    requires counters { start + total_count splices.now < 2 ^ 64 }
    ensures { IfOk result (λ parts. parts
        ≡ parts_made (asking actor splices.now time (chars message.now)) seq start deps.now
        (visible_ids (S.removals sequence.now) (S.placed sequence.now))) }
{
    let records = records(alloc, sequence, actor, start, splices)?;
    let message = Text::of(alloc, message)?;
    let deps = Vec::from_slice(alloc, deps)?;
    Ok(ChangeParts {
        actor,
        seq,
        start,
        time,
        message,
        deps: Items::new(deps),
        records: Items::new(records),
    })
}

// Whether an edit asks for some operations, which are within all limits that are judged before its records are made.
fn validate_edit<S: Sequence>(
    graph: &Graph,
    sequence: &S,
    splices: &[Splice],
    message: &str,
) -> Result<bool, DocError>
    requires { DocumentInvariant graph.now.applied (S.placed sequence.now) (S.removals sequence.now) }
    ensures { IsAllowed graph.now.applied splices.now (chars message.now) result }
{
    let count = match validate_splices(splices, sequence.len()) {
        Ok(count) => count,
        Err(error) => return Err(error),
    };
    if count == 0 {
        return Ok(false);
    }
    if graph.heads().len() > MAX_DEPS {
        return Err(DocError::TooManyHeads);
    }
    let next = graph.next_counter();
    if next as u128 + count as u128 > COUNTERS_END as u128 {
        return Err(DocError::CounterLimit);
    }
    if byte_count(message) > MAX_MESSAGE_BYTES {
        return Err(DocError::TooLong);
    }
    Ok(true)
}

// The change of an edit that is within the limits judged before.
fn change_of<S: Sequence>(
    alloc: Global,
    graph: &Graph,
    sequence: &S,
    actor: Actor,
    splices: &[Splice],
    time: u64,
    message: &str,
) -> Result<Change, DocError>
    requires holds { DocumentInvariant graph.now.applied (S.placed sequence.now) (S.removals sequence.now) }
    requires within { IsWithinLimits graph.now.applied
        (asking actor splices.now time (chars message.now)) }
    ensures { MatchResult result
        (λ c. IsWithinSize graph.now.applied (asking actor splices.now time (chars message.now)) c)
        (λ e. RefusesMaking graph.now.applied (asking actor splices.now time (chars message.now)) e) }
{
    let _actor = array_len(actor.0);
    let seq = next_seq(graph, &actor);
    let next = graph.next_counter();
    let heads = graph.heads();
    let parts = parts_of(
        alloc, sequence, heads, actor, seq, next, splices, time, message,
    )?;
    make_change(alloc, parts)
}

// The change, unless the graph is full or has a change with its hash.
fn unless_shut(graph: &Graph, change: Change) -> Result<Change, DocError>
    requires { length graph.now.applied ≤ most_changes }
    ensures { MatchResult result
        (λ c. (c ≡ change) × (length graph.now.applied < most_changes)
        × (has graph.now.applied (hash_of change) ≡ false))
        (λ e. IsShut graph.now.applied change e) }
{
    if graph.changes().len() == MOST_CHANGES {
        return Err(DocError::Full);
    }
    if graph.contains(&change.hash()) {
        return Err(DocError::HashTaken);
    }
    Ok(change)
}

impl<S: Sequence> Document<S> {
    /// The change that an edit would make, on the heads; `None` where the splices are in range and change nothing.
    /// The document stays as it is.
    ///
    /// A splice counts characters, each on the text that the ones before it leave. The edit is refused at the first
    /// of these that holds: `OutOfRange` where a splice reaches past its text; `TooManyOps` where it deletes and
    /// inserts more than 65,536 characters; `TooManyHeads` past 65,535 heads; `CounterLimit` where its last counter
    /// would be past 2^48 - 1; `TooLong` where the message has more than 65,535 bytes or the change more than
    /// 4,194,304; `Full` at 4,294,967,295 changes; `HashTaken` where a change that is there has its hash. It may be
    /// refused as `OutOfMemory` at any time.
    ///
    /// No pass over the changes; one splice makes no pass over the text beyond what the search of the sequence costs.
    pub fn make_edit(
        &self,
        actor: Actor,
        splices: &[Splice],
        time: u64,
        message: &str,
    ) -> Result<Option<Change>, DocError>
        ensures { MatchResult result
            (λ made. MatchOption made
            (AsksNothing self.now.applied (asking actor splices.now time (chars message.now)))
            (λ c. IsAcceptedEdit self.now.applied (asking actor splices.now time (chars message.now)) c))
            (λ e. RefusesMaking self.now.applied
            (asking actor splices.now time (chars message.now)) e) }
    {
        match validate_edit(&self.graph, &self.sequence, splices, message) {
            Ok(true) => {}
            Ok(false) => return Ok(None),
            Err(error) => return Err(error),
        }
        match change_of(
            self.alloc,
            &self.graph,
            &self.sequence,
            actor,
            splices,
            time,
            message,
        ) {
            Ok(change) => match unless_shut(&self.graph, change) {
                Ok(change) => Ok(Some(change)),
                Err(error) => Err(error),
            },
            Err(error) => Err(error),
        }
    }

    /// Edits the text: makes the change of the edit and enters it. Answers its hash; `None` where the splices are in
    /// range and change nothing. The refusals are those of [`make_edit`](Document::make_edit), and each leaves the
    /// document as it was.
    pub fn edit(
        &mut self,
        actor: Actor,
        splices: &[Splice],
        time: u64,
        message: &str,
    ) -> Result<Option<Hash>, DocError>
        ensures done { EditsTo self.old.applied
            (asking actor splices.now time (chars message.now)) self.new.applied result }
        ensures text { IfOk result
            (λ _. DoesSplices self.old.applied self.new.applied splices.now) }
        ensures id { self.new.id ≡ self.old.id }
        ensures waiting { self.new.waiting ≡ self.old.waiting }
    {
        let _count = self.changes().len();
        match self.make_edit(actor, splices, time, message) {
            Ok(Some(change)) => match self.reserve(&change) {
                Ok(()) => {
                    let hash = change.hash();
                    self.enter(change);
                    Ok(Some(hash))
                }
                Err(_) => Err(DocError::OutOfMemory),
            },
            Ok(None) => Ok(None),
            Err(error) => Err(error),
        }
    }
}

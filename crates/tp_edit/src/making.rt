//! The records of an edit.

ghost use Rattle.std.specs.Prelude.{◌≡◌, ◌+◌, ◌<◌, ◌^◌, ◌++◌, ◌&&◌, length, drop, take, IfOk, OnOk};
ghost use Rattle.tp_rga.specs.Shown.{visible_of};
ghost use Rattle.tp_edit.specs.Splices.{AllInRange, IsInRange, inserted_chars, total_count};
ghost use Rattle.tp_edit.specs.EditRecords.{can_count, goes_on, records_of_edit, records_of_splice, removal, removals_of, visible_ids};
ghost use Rattle.tp_edit.specs.Landings.{HasLandings, ids_through};

use crate::landing::{Landing, Landings, id_through};
use crate::splice::Splice;
use std::alloc::{AllocError, Global};
use tp_change::Record;
use tp_list::Text;
use tp_opid::{Actor, OpId, Place};
use tp_rga::Sequence;

// The record of a stretch: a delete of one element, a run of several.
fn removal_of(first: OpId, count: u32) -> Record
    ensures { result ≡ removal first count }
{
    if count == 1 {
        Record::Delete { target: first }
    } else {
        Record::DeleteRun { first, count }
    }
}

// Whether the element goes on a stretch of `count`, and a record can count it too.
fn extends(first: &OpId, count: u32, target: &OpId) -> bool
    ensures { result ≡ (goes_on first.now count target.now && can_count (count + 1)) }
{
    if !first.actor.is(&target.actor) || target.counter < first.counter {
        return false;
    }
    target.counter - first.counter == count as u64 && count < u32::MAX
}

// Appends the removals of the elements that one splice, which comes after the landings, deletes.
fn append_removals<S: Sequence>(
    records: &mut Vec<Record>,
    sequence: &S,
    actor: Actor,
    landings: &Landings,
    splice: &Splice,
) -> Result<(), AllocError>
    requires landings { HasLandings actor
        (visible_ids (S.removals sequence.now) (S.placed sequence.now))
        landings.now }
    requires in_range { IsInRange
        (length (ids_through actor
        (visible_ids (S.removals sequence.now) (S.placed sequence.now))
        landings.now.done.items))
        splice.now }
    requires counted { length (visible_of (S.removals sequence.now) (S.placed sequence.now)) < 2 ^ 64 }
    ensures { OnOk result (records.new.items
        ≡ records.old.items
        ++ removals_of (take splice.now.del
        (drop splice.now.at
        (ids_through actor
        (visible_ids (S.removals sequence.now) (S.placed sequence.now))
        landings.now.done.items)))) }
{
    if splice.del == 0 {
        return Ok(());
    }
    let at = splice.at as u128;
    let mut first = id_through(sequence, actor, landings, at);
    let mut count = 1;
    for k in 1..splice.del {
        let target = id_through(sequence, actor, landings, at + k as u128);
        if extends(&first, count, &target) {
            count += 1;
        } else {
            records.push(removal_of(first, count))?;
            first = target;
            count = 1;
        }
    }
    records.push(removal_of(first, count))?;
    Ok(())
}

// Appends the records of one splice, which comes after the landings. `count` is how many characters it inserts.
fn append_splice<S: Sequence>(
    alloc: Global,
    records: &mut Vec<Record>,
    sequence: &S,
    actor: Actor,
    landings: &Landings,
    splice: &Splice,
    count: usize,
) -> Result<(), AllocError>
    requires landings { HasLandings actor
        (visible_ids (S.removals sequence.now) (S.placed sequence.now))
        landings.now }
    requires in_range { IsInRange
        (length (ids_through actor
        (visible_ids (S.removals sequence.now) (S.placed sequence.now))
        landings.now.done.items))
        splice.now }
    requires count { count ≡ length (inserted_chars splice.now) }
    requires counted { length (visible_of (S.removals sequence.now) (S.placed sequence.now)) < 2 ^ 64 }
    ensures { OnOk result (records.new.items
        ≡ records.old.items
        ++ records_of_splice
        (ids_through actor
        (visible_ids (S.removals sequence.now) (S.placed sequence.now))
        landings.now.done.items)
        splice.now) }
{
    append_removals(records, sequence, actor, landings, splice)?;
    if count > 0 {
        let at = splice.at as u128;
        let after = if at == 0 {
            Place::Start
        } else {
            Place::After(id_through(sequence, actor, landings, at - 1))
        };
        let text = Text::of(alloc, splice.text)?;
        records.push(Record::Insert { after, text })?;
    }
    Ok(())
}

// How many of the splices have a text.
fn text_count(splices: &[Splice]) -> usize {
    splices.iter().filter(|s| !s.text.is_empty()).count()
}

/// The records of an edit by `actor` of the text that a sequence shows, where `start` is the counter of the first
/// operation: splice by splice, each on the text that the ones before it leave, the deletes of its elements in their
/// order and then the inserted text as one run after the visible element before it. Of the deleted elements each
/// longest stretch of two or more that are of one actor and whose counters rise by 1 is one run of deletes, and each
/// other a delete. Operations take successive counters.
///
/// The caller sees to it that the splices are in range, by [`in_range`](crate::in_range), and that the counters stay
/// below 2^64, by [`operation_count`](crate::operation_count). The only refusal is for want of memory.
///
/// One splice looks up each deleted element in the sequence and the one before the run, and makes no pass over the
/// text. A position before all that the earlier splices touched, or after it, is looked up at once, so the time that
/// splices take which rise or fall grows with their number; another position is traced back through the splices before
/// it. Each inserted text is copied once. Memory is for the records and the places of the splices: the deletes of a
/// stretch take that of one record.
pub fn records<S: Sequence>(
    alloc: Global,
    sequence: &S,
    actor: Actor,
    start: u64,
    splices: &[Splice],
) -> Result<Vec<Record>, AllocError>
    requires in_range { AllInRange
        (length (visible_of (S.removals sequence.now) (S.placed sequence.now)))
        splices.now }
    requires counters { start + total_count splices.now < 2 ^ 64 }
    ensures { IfOk result (λ records. records.items
        ≡ records_of_edit actor start
        (visible_ids (S.removals sequence.now) (S.placed sequence.now))
        splices.now) }
{
    // So its length is known to fit a `usize`.
    let _len = sequence.len();
    let mut records = Vec::with_capacity(alloc, text_count(splices))?;
    let mut landings = Landings::none(alloc, splices.len())?;
    let mut next = start;
    for splice in splices {
        let count = splice.inserted_count();
        append_splice(
            alloc,
            &mut records,
            sequence,
            actor,
            &landings,
            splice,
            count,
        )?;
        let first = next + splice.del as u64;
        landings.push(Landing {
            at: splice.at,
            del: splice.del,
            len: count,
            first,
        })?;
        next = first + count as u64;
    }
    Ok(records)
}

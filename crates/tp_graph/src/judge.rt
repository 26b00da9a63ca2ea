//! What a change has to be after the changes of its past: its numbers and its references.

ghost use Rattle.std.specs.Prelude.{◌≡◌, ◌+◌, ◌<◌, ◌≤◌, ◌^◌, ◌++◌, List, length, Some, true, false, IsTrue};
ghost use Rattle.std.specs.List.{slice_get};
ghost use Rattle.tp_layout.specs.declared.limits.TheConstants.{COUNTERS_END};
ghost use Rattle.tp_layout.specs.declared.parts.ChangeParts.{ChangeParts};
ghost use Rattle.tp_layout.specs.declared.record.Record.{Record};
ghost use Rattle.tp_change.specs.Elements as made;
ghost use Rattle.tp_layout.specs.Limits.{IsRecord};
ghost use Rattle.tp_layout.specs.Counts.{count_of};
ghost use Rattle.tp_change.specs.Operations.{op_count, ops_of, ops_from};
ghost use Rattle.tp_graph.specs.Before.{DescribesRecords, IsClear};
ghost use Rattle.tp_graph.specs.Covers as cover;
ghost use Rattle.tp_graph.specs.Marked.{IsMarked};
ghost use Rattle.tp_ancestry.specs.PastSets.{past_changes, IsPastSetIn};

use crate::applied::Applied;
use crate::before::{Before, put};
use crate::maker::maker;
use tp_ancestry::PastSet;
use tp_change::{Change, MAX_OPS, Record};
use tp_list::char_count;
use tp_opid::{OpId, Place};

/// At most this many operations are few: marks for them cost next to nothing, and so does a pass over them.
pub(crate) const FEW: usize = 64;

// Whether the records, the first of which has the given counter, insert at a counter.
fn covers(records: &[Record], first: u64, counter: u64) -> bool
    requires { first + count_of records.now < 2 ^ 64 }
    ensures { result ≡ cover.covers first records.now counter }
{
    let mut next = first;
    for record in records {
        match record {
            Record::Insert { text, .. } => {
                let end = next + char_count(text.as_str()) as u64;
                if next <= counter && counter < end {
                    return true;
                }
                next = end;
            }
            Record::Delete { .. } => next += 1,
            Record::DeleteRun { count, .. } => next += *count as u64,
        }
    }
    false
}

// Whether no record is a delete or a run of deletes. No text is gone over.
fn only_inserts(records: &[Record]) -> bool
    ensures { result ≡ cover.only_inserts records.now }
{
    for record in records {
        match record {
            Record::Insert { .. } => {}
            Record::Delete { .. } => return false,
            Record::DeleteRun { .. } => return false,
        }
    }
    true
}

// Whether the change, whose last counter is before `end`, inserts the element with the identifier. Where it deletes
// nothing, no text is gone over.
fn inserts_id(change: &Change, end: u64, id: &OpId) -> bool
    requires { end ≡ change.now.start + op_count change.now }
    ensures { result ≡ made.is_inserted (made.inserts_in (ops_of change.now)) id.now }
{
    let _hash = change.hash();
    if end <= id.counter {
        return false;
    }
    if id.counter < change.start() {
        return false;
    }
    if !change.actor().is(&id.actor) {
        return false;
    }
    if only_inserts(change.records()) {
        return true;
    }
    covers(change.records(), change.start(), id.counter)
}

// Whether the change inserts the element with the identifier, where its deletes are marked. A look-up.
fn inserts_marked(change: &Change, end: u64, deletes: &[bool], id: &OpId) -> bool
    requires end { end ≡ change.now.start + op_count change.now }
    requires marked { IsMarked change.now deletes.now }
    ensures { result ≡ made.is_inserted (made.inserts_in (ops_of change.now)) id.now }
{
    if !change.actor().is(&id.actor) {
        return false;
    }
    let before = Before {
        actor: change.actor(),
        first: change.start(),
        count: (end - change.start()) as usize,
        deletes,
    };
    before.inserts_at(id.counter)
}

impl Applied {
    // Whether the change at the place inserts the element with the identifier: a look-up among its marks, or a pass
    // over its few operations.
    fn inserts_at(&self, place: usize, id: &OpId) -> bool
        requires { place < length self.now.changes }
        ensures { (c : ChangeParts) → slice_get self.now.changes place ≡ Some c
            → result ≡ made.is_inserted (made.inserts_in (ops_of c)) id.now }
    {
        let _changes = self.changes();
        let ancestry = self.ancestry();
        let change = ancestry.at(place);
        let end = ancestry.end_at(place);
        match self.marks_at(place) {
            Some(deletes) => inserts_marked(change, end, deletes, id),
            None => inserts_id(change, end, id),
        }
    }

    // Whether a change of the past inserts the element with the identifier: look-ups for the change that has the
    // operation, and for the operation in it.
    fn is_inserted(&self, past_set: &PastSet, id: &OpId) -> bool
        requires { IsPastSetIn past_set.now self.now.changes }
        ensures { result
            ≡ made.is_inserted (made.inserts (past_changes past_set.now self.now.changes)) id.now }
    {
        let _changes = self.changes();
        let ancestry = self.ancestry();
        match maker(ancestry, id) {
            Some(place) => {
                if !past_set.holds(ancestry, place) {
                    return false;
                }
                self.inserts_at(place, id)
            }
            None => false,
        }
    }

    // Whether a change of the past, or one of the records before, inserts the element with the identifier.
    fn is_known(&self, past_set: &PastSet, before: &Before, id: &OpId) -> bool
        requires past_set { IsPastSetIn past_set.now self.now.changes }
        requires room { before.now.count ≤ length before.now.deletes.now }
        ensures { (rs : List Record) → DescribesRecords before.now rs → result
            ≡ made.is_inserted (made.inserts_in (ops_from before.now.actor before.now.first rs)
            ++ made.inserts (past_changes past_set.now self.now.changes)) id.now }
    {
        if !before.actor.is(&id.actor) {
            return self.is_inserted(past_set, id);
        }
        if before.inserts_at(id.counter) {
            return true;
        }
        self.is_inserted(past_set, id)
    }

    // Whether a change of the past, or one of the records before, inserts each element of a run: the first one, and
    // those of the same actor with the next counters. A look-up for each.
    fn are_known(&self, past_set: &PastSet, before: &Before, first: &OpId, count: u32) -> bool
        requires past_set { IsPastSetIn past_set.now self.now.changes }
        requires room { before.now.count ≤ length before.now.deletes.now }
        requires counters { first.now.counter + count ≤ COUNTERS_END }
        ensures { (rs : List Record) → DescribesRecords before.now rs → result
            ≡ cover.all_inserted (made.inserts_in (ops_from before.now.actor before.now.first rs)
            ++ made.inserts (past_changes past_set.now self.now.changes)) first.now count }
    {
        for i in 0..count {
            let target = OpId {
                counter: first.counter + i as u64,
                actor: first.actor,
            };
            if !self.is_known(past_set, before, &target) {
                return false;
            }
        }
        true
    }

    // Whether the reference or each target of the record is inserted by a change of the past, or by one of the
    // records before it.
    fn is_there(&self, past_set: &PastSet, before: &Before, entry: &Record) -> bool
        requires past_set { IsPastSetIn past_set.now self.now.changes }
        requires entry { IsRecord entry.now }
        requires room { before.now.count ≤ length before.now.deletes.now }
        ensures { (rs : List Record) → DescribesRecords before.now rs → result
            ≡ cover.is_there (made.inserts_in (ops_from before.now.actor before.now.first rs)
            ++ made.inserts (past_changes past_set.now self.now.changes)) entry.now }
    {
        match entry {
            Record::Insert { after, .. } => match after {
                Place::Start => true,
                Place::After(id) => self.is_known(past_set, before, id),
            },
            Record::Delete { target } => self.is_known(past_set, before, target),
            Record::DeleteRun { first, count } => self.are_known(past_set, before, first, *count),
        }
    }

    // Whether each reference and each target of the change is inserted by a change of the past, or earlier in the
    // change. The marks are for the operations of the change.
    fn refers_with(&self, past_set: &PastSet, change: &Change, deletes: &mut [bool]) -> bool
        requires past_set { IsPastSetIn past_set.now self.now.changes }
        requires room { op_count change.now ≤ length deletes.old }
        requires clear { IsClear deletes.old }
        ensures { result ≡ made.refers (made.inserts (past_changes past_set.now self.now.changes))
            (ops_of change.now) }
    {
        let _hash = change.hash();
        let actor = change.actor();
        let first = change.start();
        let records = change.records();
        let mut count = 0;
        for i in 0..records.len() {
            let before = Before {
                actor,
                first,
                count,
                deletes,
            };
            if !self.is_there(past_set, &before, &records[i]) {
                return false;
            }
            count = put(deletes, count, &records[i]);
        }
        true
    }

    // Whether all references of the change are there, for one of few operations.
    fn refers_small(&self, past_set: &PastSet, change: &Change) -> bool
        requires past_set { IsPastSetIn past_set.now self.now.changes }
        requires few { op_count change.now ≤ FEW }
        ensures { result ≡ made.refers (made.inserts (past_changes past_set.now self.now.changes))
            (ops_of change.now) }
    {
        let mut deletes = [false; FEW];
        self.refers_with(past_set, change, &mut deletes)
    }

    // Whether all references of the change are there, for any change.
    fn refers_large(&self, past_set: &PastSet, change: &Change) -> bool
        requires { IsPastSetIn past_set.now self.now.changes }
        ensures { result ≡ made.refers (made.inserts (past_changes past_set.now self.now.changes))
            (ops_of change.now) }
    {
        let _hash = change.hash();
        let mut deletes = [false; MAX_OPS];
        self.refers_with(past_set, change, &mut deletes)
    }

    /// Whether each reference and each target of the change is inserted by a change of the past, or earlier in the
    /// change. A reference to a record of the change itself is a look-up among marks, one for each operation, which
    /// take no memory but room on the stack.
    pub(crate) fn refers(&self, past_set: &PastSet, change: &Change) -> bool
        requires { IsPastSetIn past_set.now self.now.changes }
        ensures { result ≡ made.refers (made.inserts (past_changes past_set.now self.now.changes))
            (ops_of change.now) }
    {
        if change.op_count() <= FEW {
            self.refers_small(past_set, change)
        } else {
            self.refers_large(past_set, change)
        }
    }
}

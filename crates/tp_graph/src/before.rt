//! What the records before a record of their change insert.

ghost use Rattle.std.specs.Prelude.{◌≡◌, ℕ, ◌+◌, ◌≤◌, List, [], ◌∷◌, ◌++◌, length};
ghost use Rattle.tp_layout.specs.declared.record.Record.{Record};
ghost use Rattle.tp_layout.specs.Counts.{count_in};
ghost use Rattle.tp_graph.specs.Before.{DescribesRecords, Marks, AreSet};
ghost use Rattle.tp_graph.specs.Covers.{covers};

use tp_change::Record;
use tp_list::char_count;
use tp_opid::Actor;

/// The records of a change before one of them: whose they are, their first counter, how many operations they have, and
/// a mark for each of these that is a delete.
#[derive(Drop)]
pub(crate) struct Before<'a> {
    pub(crate) actor: Actor,
    pub(crate) first: u64,
    pub(crate) count: usize,
    pub(crate) deletes: &'a [bool],
}

impl<'a> Before<'a> {
    /// Whether one of the records inserts at the counter. A look-up.
    pub(crate) fn inserts_at(&self, counter: u64) -> bool
        requires { self.now.count ≤ length self.now.deletes.now }
        ensures { (rs : List Record) → DescribesRecords self.now rs
            → result ≡ covers self.now.first rs counter }
    {
        if counter < self.first {
            return false;
        }
        let number = counter - self.first;
        if number >= self.count as u64 {
            return false;
        }
        !self.deletes[number as usize]
    }
}

// Sets the marks from one place to before another.
fn mark_all(deletes: &mut [bool], from: usize, end: usize)
    requires order { from ≤ end }
    requires room { end ≤ length deletes.old }
    ensures len { length deletes.new ≡ length deletes.old }
    ensures marks { AreSet deletes.old deletes.new from end }
{
    for number in from..end {
        deletes[number] = true;
    }
}

/// Marks the operations of the record after those that are counted, where they are deletes; how many there are then.
/// The cost is that of going over a text, or over the marks of a run of deletes.
pub(crate) fn put(deletes: &mut [bool], count: usize, entry: &Record) -> usize
    requires { count + count_in entry.now ≤ length deletes.old }
    ensures len { length deletes.new ≡ length deletes.old }
    ensures marks { (first : ℕ) (rs : List Record) → Marks deletes.old first count rs
        → Marks deletes.new first result (rs ++ entry.now ∷ []) }
{
    match entry {
        Record::Insert { text, .. } => count + char_count(text.as_str()),
        Record::Delete { .. } => {
            deletes[count] = true;
            count + 1
        }
        Record::DeleteRun { count: more, .. } => {
            let end = count + *more as usize;
            mark_all(deletes, count, end);
            end
        }
    }
}

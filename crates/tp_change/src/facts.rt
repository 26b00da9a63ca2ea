//! What the types of the parts always say of them: a Rust array has its length, and its elements are bytes.

ghost use Rattle.std.specs.Prelude.{◌≡◌};
ghost use Rattle.tp_layout.specs.Limits.{IsId, IsPlace, IsTypedRecord};
ghost use Rattle.tp_layout.specs.Counts.{count_in};

use tp_layout::Record;
use tp_list::{array_len, char_count};
use tp_opid::{OpId, Place};

/// The counter has 64 bits, and the actor 16 bytes.
fn of_id(id: &OpId)
    ensures { IsId id.now }
{
    let _counter = id.counter;
    let _bytes = array_len(id.actor.0);
}

/// So has the identifier of a reference.
fn of_place(place: &Place)
    ensures { IsPlace place.now }
{
    if let Place::After(id) = place {
        of_id(id);
    }
}

/// How many operations a record is. The cost is that of going over a run's text.
pub(crate) fn ops_in(entry: &Record) -> usize
    ensures count { result ≡ count_in entry.now }
    ensures typed { IsTypedRecord entry.now }
{
    match entry {
        Record::Insert { after, text } => {
            of_place(after);
            char_count(text.as_str())
        }
        Record::Delete { target } => {
            of_id(target);
            1
        }
        Record::DeleteRun { first, count } => {
            of_id(first);
            *count as usize
        }
    }
}

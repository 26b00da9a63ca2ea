//! Which version the bytes of a change have.

ghost use Rattle.std.specs.Prelude.{◌≡◌};
ghost use Rattle.tp_layout.specs.Spelling.{is_run, has_run, version_of};

use crate::record::Record;

/// Whether a record is a run of deletes.
fn is_run(entry: &Record) -> bool
    ensures { result ≡ is_run entry.now }
{
    match entry {
        Record::Insert { after: _, text: _ } | Record::Delete { target: _ } => false,
        Record::DeleteRun { first: _, count: _ } => true,
    }
}

/// Whether one of the records is a run of deletes.
fn has_run(records: &[Record]) -> bool
    ensures { result ≡ has_run records.now }
{
    for entry in records {
        if is_run(entry) {
            return true;
        }
    }
    false
}

/// The version of a change with these records. The cost is that of going over them, and not over their texts.
pub(crate) fn version_of(records: &[Record]) -> u8
    ensures { result ≡ version_of records.now }
{
    if has_run(records) { 2 } else { 1 }
}

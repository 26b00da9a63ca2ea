//! Copies of the parts of changes.

ghost use Rattle.std.specs.Prelude.{◌≡◌, IfOk, IsOkUnless};
ghost use Rattle.tp_layout.specs.Kept.{seq_of, message_of, deps_of, records_of, Has};
ghost use Rattle.tp_layout.specs.declared.error.ChangeError.TheVariants.{OutOfMemory};

use crate::body::{Body, Kept};
use crate::error::ChangeError;
use crate::record::Record;
use std::alloc::Global;
use tp_list::Text;

/// An equal text.
fn copy_text(alloc: Global, text: &Text) -> Result<Text, ChangeError>
    ensures copied { IfOk result (λ copied. copied ≡ text.now) }
    ensures err { IsOkUnless result OutOfMemory }
{
    Ok(Text::of(alloc, text.as_str())?)
}

/// An equal record.
fn copy_record(alloc: Global, entry: &Record) -> Result<Record, ChangeError>
    ensures copied { IfOk result (λ copied. copied ≡ entry.now) }
    ensures err { IsOkUnless result OutOfMemory }
{
    Ok(match entry {
        Record::Insert { after, text } => Record::Insert {
            after: *after,
            text: copy_text(alloc, text)?,
        },
        Record::Delete { target } => Record::Delete { target: *target },
        Record::DeleteRun { first, count } => Record::DeleteRun {
            first: *first,
            count: *count,
        },
    })
}

/// Equal records, in memory that is reserved once.
fn copy_records(alloc: Global, records: &[Record]) -> Result<Vec<Record>, ChangeError>
    ensures copied { IfOk result (λ copied. copied.items ≡ records.now) }
    ensures err { IsOkUnless result OutOfMemory }
{
    let mut copied = Vec::with_capacity(alloc, records.len())?;
    for entry in records {
        copied.push(copy_record(alloc, entry)?)?;
    }
    Ok(copied)
}

/// A copy of the parts.
fn copy_kept(alloc: Global, kept: &Kept) -> Result<Kept, ChangeError>
    ensures copied { IfOk result (Has (seq_of kept.now) (message_of kept.now) (deps_of kept.now) (records_of kept.now)) }
    ensures err { IsOkUnless result OutOfMemory }
{
    Ok(match kept {
        Kept::Small { seq, dep, entry } => Kept::Small {
            seq: *seq,
            dep: *dep,
            entry: copy_record(alloc, entry)?,
        },
        Kept::Single {
            seq,
            dep: hash,
            message: text,
            records,
        } => Kept::Single {
            seq: *seq,
            dep: *hash,
            message: copy_text(alloc, text)?,
            records: copy_records(alloc, records.as_slice())?,
        },
        Kept::Large {
            seq,
            message,
            deps,
            records,
        } => Kept::Large {
            seq: *seq,
            message: copy_text(alloc, message)?,
            deps: Vec::from_slice(alloc, deps.as_slice())?,
            records: copy_records(alloc, records.as_slice())?,
        },
    })
}

impl Body {
    /// Equal parts. The only refusal is `OutOfMemory`; the cost is that of copying them.
    pub fn copy(&self, alloc: Global) -> Result<Body, ChangeError>
        ensures copied { IfOk result (λ copied. copied ≡ self.now) }
        ensures err { IsOkUnless result OutOfMemory }
    {
        Ok(Body {
            actor: self.actor,
            start: self.start,
            time: self.time,
            kept: copy_kept(alloc, &self.kept)?,
        })
    }
}

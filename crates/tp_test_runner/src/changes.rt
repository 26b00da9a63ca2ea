//! Calls on the fields of changes.

use crate::fault::{Fault, answer_ok, refusal};
use crate::lists::hashes;
use crate::literals::{actor, number, records, text};
use crate::printing::{put_actor, put_names, put_op, put_record, put_text};
use crate::shelf::Shelf;
use crate::words::Words;
use tp_change::{Change, ChangeError, ChangeParts};
use tp_list::{Items, Text};

// `ACTOR SEQ START DEPS [time=N] [message=TEXT] RECORD..`: the parts of a change.
fn parts_of(changes: &Shelf<Change>, words: &mut Words) -> Result<ChangeParts, Fault> {
    let alloc = changes.alloc();
    let actor = actor(words.next()?)?;
    let seq = number(words.next()?)?;
    let start = number(words.next()?)?;
    let deps = words.next()?;
    let time = number(words.option("time").unwrap_or("0"))?;
    let message = words.option("message").unwrap_or("\"\"");
    let deps = Items::new(hashes(changes, deps)?);
    let message = Text::new(text(alloc, message)?);
    let records = Items::new(records(alloc, words.rest())?);
    Ok(ChangeParts {
        actor,
        seq,
        start,
        time,
        message,
        deps,
        records,
    })
}

// `change NAME ACTOR SEQ START DEPS [time=N] [message=TEXT] RECORD..`: a change of these parts.
fn make(changes: &mut Shelf<Change>, words: &mut Words) -> Result<String, Fault> {
    let name = words.next()?;
    let parts = parts_of(changes, words)?;
    let made = Change::new(changes.alloc(), parts);
    keep_change(changes, name, made)
}

/// Gives a change its name and answers `ok`, or answers why there is none.
pub fn keep_change(
    changes: &mut Shelf<Change>,
    name: &str,
    made: Result<Change, ChangeError>,
) -> Result<String, Fault> {
    match made {
        Ok(change) => {
            changes.put(name, change)?;
            answer_ok(changes.alloc())
        }
        Err(error) => refusal(changes.alloc(), error),
    }
}

// `size CHANGE`: the number of its bytes, of its operations, and the counter after its last.
fn size(changes: &Shelf<Change>, words: &mut Words) -> Result<String, Fault> {
    let change = changes.get(words.next()?)?;
    let (len, count, next) = (change.encoded_len(), change.op_count(), change.next_start());
    Ok(format!(in changes.alloc(); "{len} bytes, {count} operations, next {next}")?)
}

// Adds the fields of a change that are before its records.
fn put_head(changes: &Shelf<Change>, out: &mut String, change: &Change) -> Result<(), Fault> {
    put_actor(out, &change.actor())?;
    let (seq, start, time) = (change.seq(), change.start(), change.time());
    write!(out, " {seq} {start} ")?;
    put_names(changes, out, change.deps())?;
    write!(out, " time={time} message=")?;
    put_text(out, change.message())
}

// `fields CHANGE`: its parts, in the order in which `change` takes them.
fn fields(changes: &Shelf<Change>, words: &mut Words) -> Result<String, Fault> {
    let change = changes.get(words.next()?)?;
    let mut out = String::new(changes.alloc());
    put_head(changes, &mut out, change)?;
    for record in change.records() {
        out.push(' ')?;
        put_record(&mut out, record)?;
    }
    Ok(out)
}

// `operations CHANGE`: its operations, each as `ID:RECORD`.
fn operations(changes: &Shelf<Change>, words: &mut Words) -> Result<String, Fault> {
    let change = changes.get(words.next()?)?;
    let mut out = String::new(changes.alloc());
    for op in change.ops() {
        if !out.is_empty() {
            out.push(' ')?;
        }
        put_op(&mut out, &op)?;
    }
    Ok(out)
}

/// Makes the calls `change`, `size`, `fields` and `operations`, which make and show changes by their fields; `None`
/// where the word is none of these.
pub fn call_on_fields(
    changes: &mut Shelf<Change>,
    word: &str,
    words: &mut Words,
) -> Option<Result<String, Fault>> {
    Some(match word {
        "change" => make(changes, words),
        "size" => size(changes, words),
        "fields" => fields(changes, words),
        "operations" => operations(changes, words),
        _ => return None,
    })
}

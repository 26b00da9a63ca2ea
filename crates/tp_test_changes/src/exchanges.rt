//! The call `exchange`.

use crate::world::{Doc, World};
use std::alloc::Global;
use tp_change::Change;
use tp_sync::{Exchanged, SyncError, exchange};
use tp_test_runner::{Fault, Shelf, Words, put_applied, refusal};

// Takes out the first document, so that the second one can be lent beside it.
fn exchange_named(
    alloc: Global,
    documents: &mut Shelf<Doc>,
    a: &str,
    b: &str,
) -> Result<Result<Exchanged, SyncError>, Fault> {
    let mut first = documents.take(a)?;
    let answer = match documents.get_mut(b) {
        Ok(second) => Ok(exchange(alloc, &mut first.1, second)),
        Err(fault) => Err(fault),
    };
    documents.put_back(first)?;
    answer
}

fn line_of_exchange(changes: &Shelf<Change>, done: &Exchanged) -> Result<String, Fault> {
    let mut out = String::new(changes.alloc());
    put_applied(changes, &mut out, &done.into_a)?;
    out.push_str(", ")?;
    put_applied(changes, &mut out, &done.into_b)?;
    if done.cut {
        out.push_str(", cut")?;
    }
    Ok(out)
}

/// The call `exchange DOCUMENT DOCUMENT`, which answers what entered, is held and was refused in the first and in the
/// second one, and `cut` where changes were left out.
pub fn call(world: &mut World, words: &mut Words) -> Result<String, Fault> {
    let (a, b) = (words.next()?, words.next()?);
    match exchange_named(world.alloc, &mut world.documents, a, b)? {
        Ok(done) => line_of_exchange(&world.changes, &done),
        Err(error) => refusal(world.alloc, error),
    }
}

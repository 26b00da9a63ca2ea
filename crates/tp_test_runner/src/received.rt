//! What became of changes, as answers print it, and a keeper that refuses.

use crate::fault::{Fault, refusal};
use crate::printing::{put_name, put_names};
use crate::shelf::Shelf;
use std::fmt::Display;
use tp_change::Change;
use tp_document::{Applied, KeepError, Keeper};
use tp_graph::GraphError;
use tp_opid::Hash;

/// More refusals than this are printed as their number.
const MOST_REFUSED: usize = 12;

/// A keeper that keeps as many changes as it says, and refuses those after them.
#[derive(Drop)]
pub struct Few {
    /// How many it keeps yet.
    pub left: usize,
}

impl Keeper for Few {
    ghost keeps = { λ a c b. Unit {0} };

    ghost refuses = { λ a c e b. Unit {0} };

    fn keep(&mut self, _change: &Change) -> Result<(), KeepError> {
        if self.left == 0 {
            return Err(KeepError::NotKept);
        }
        self.left -= 1;
        Ok(())
    }
}

fn put_refused(
    changes: &Shelf<Change>,
    out: &mut String,
    refused: &[(Hash, GraphError)],
) -> Result<(), Fault> {
    let count = refused.len();
    if count > MOST_REFUSED {
        write!(out, "[{count} changes]")?;
        return Ok(());
    }
    out.push('[')?;
    for (i, (hash, error)) in refused.iter().enumerate() {
        if i > 0 {
            out.push(',')?;
        }
        put_name(changes, out, hash)?;
        write!(out, ":{error}")?;
    }
    out.push(']')?;
    Ok(())
}

/// Adds what became of the changes that weren't refused: `entered [..] held [..]`.
pub fn put_kept(changes: &Shelf<Change>, out: &mut String, applied: &Applied) -> Result<(), Fault> {
    out.push_str("entered ")?;
    put_names(changes, out, &applied.applied)?;
    out.push_str(" held ")?;
    put_names(changes, out, &applied.held)
}

/// Adds what became of the changes: `entered [..] held [..] refused [..]`.
pub fn put_applied(
    changes: &Shelf<Change>,
    out: &mut String,
    applied: &Applied,
) -> Result<(), Fault> {
    put_kept(changes, out, applied)?;
    out.push_str(" refused ")?;
    put_refused(changes, out, &applied.refused)
}

fn line_of_applied(changes: &Shelf<Change>, applied: &Applied) -> Result<String, Fault> {
    let mut out = String::new(changes.alloc());
    put_applied(changes, &mut out, applied)?;
    Ok(out)
}

/// What became of the changes, or the refusal.
pub fn reply<E: Display + Drop>(
    changes: &Shelf<Change>,
    answer: Result<Applied, E>,
) -> Result<String, Fault> {
    match answer {
        Ok(reply) => line_of_applied(changes, &reply),
        Err(error) => refusal(changes.alloc(), error),
    }
}

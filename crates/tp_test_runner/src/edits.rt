//! What an edit asks for, and the name of its change.

use crate::fault::{Fault, answer_ok};
use crate::lists::copy;
use crate::literals::{number, text};
use crate::shelf::Shelf;
use crate::splice::{OwnedSplice, splices};
use crate::words::Words;
use std::alloc::Global;
use tp_change::Change;

/// What an edit asks for.
#[derive(Drop)]
pub struct Request<'a> {
    /// The name that the new change is to have.
    pub name: Option<&'a str>,
    /// The time that it carries.
    pub time: u64,
    /// The message that it carries.
    pub message: String,
    /// The splices.
    pub splices: Vec<OwnedSplice>,
}

/// The words of an edit: `[as=NAME] [time=N] [message=TEXT] SPLICE..`.
pub fn request_of<'a>(alloc: Global, words: &mut Words<'a>) -> Result<Request<'a>, Fault> {
    let name = words.option("as");
    let time = number(words.option("time").unwrap_or("0"))?;
    let message = text(alloc, words.option("message").unwrap_or("\"\""))?;
    let splices = splices(alloc, words.rest())?;
    Ok(Request {
        name,
        time,
        message,
        splices,
    })
}

/// Gives the last of the changes a name, where there is one to be given.
pub fn name_last(
    changes: &mut Shelf<Change>,
    there: &[Change],
    name: Option<&str>,
) -> Result<String, Fault> {
    if let Some(name) = name {
        let change = copy(there.last().ok_or(Fault::Row("there is no change"))?)?;
        changes.put(name, change)?;
    }
    answer_ok(changes.alloc())
}

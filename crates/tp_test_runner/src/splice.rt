//! Splices as words spell them.

use crate::fault::Fault;
use crate::literals::{count, many, text};
use std::alloc::Global;
use tp_edit::Splice;

/// A splice with a text of its own.
#[derive(Drop)]
pub struct OwnedSplice {
    at: usize,
    del: usize,
    text: String,
}

// `AT,DEL,TEXT`.
fn splice(alloc: Global, word: &str) -> Result<OwnedSplice, Fault> {
    let fault = Fault::Row("no splice");
    let (at, rest) = word.split_once(',').ok_or(fault)?;
    let (del, inserted) = rest.split_once(',').ok_or(fault)?;
    Ok(OwnedSplice {
        at: count(at)?,
        del: count(del)?,
        text: text(alloc, inserted)?,
    })
}

/// Splices, each a word; `300*AT,DEL,TEXT` is as many like it.
pub fn splices(alloc: Global, words: &[String]) -> Result<Vec<OwnedSplice>, Fault> {
    let mut made = Vec::new(alloc);
    for word in words {
        push_splices(alloc, &mut made, word.as_str())?;
    }
    Ok(made)
}

fn push_splices(alloc: Global, made: &mut Vec<OwnedSplice>, word: &str) -> Result<(), Fault> {
    let (times, word) = many(word);
    for _ in 0..times {
        made.push(splice(alloc, word)?)?;
    }
    Ok(())
}

/// The splices, lent.
pub fn lend_splices<'a>(alloc: Global, owned: &'a [OwnedSplice]) -> Result<Vec<Splice<'a>>, Fault> {
    let mut lent = Vec::new(alloc);
    for splice in owned {
        lent.push(Splice {
            at: splice.at,
            del: splice.del,
            text: splice.text.as_str(),
        })?;
    }
    Ok(lent)
}

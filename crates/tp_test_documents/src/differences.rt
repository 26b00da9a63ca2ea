//! Calls that ask a document what changed.

use crate::lists::hashes;
use crate::world::World;
use std::alloc::Global;
use std::fmt::Write;
use tp_document::{Difference, DocError, Document};
use tp_rga::Sequence;
use tp_test_runner::{Fault, Words, in_quotes, refusal};

/// How many differences are printed; of more than these the number is.
const MOST_DIFFERENCES: usize = 12;

// Adds one as the splice of an edit is written.
fn put_difference(alloc: Global, out: &mut String, difference: &Difference) -> Result<(), Fault> {
    let splice = difference.splice();
    let text = in_quotes(alloc, splice.text)?;
    write!(out, "{},{},{text}", splice.at, splice.del)?;
    Ok(())
}

// The differences, parted by blanks, or `none`.
fn print_all(alloc: Global, differences: &[Difference]) -> Result<String, Fault> {
    let number = differences.len();
    if number == 0 {
        return Ok(String::from_str(alloc, "none")?);
    }
    if number > MOST_DIFFERENCES {
        return Ok(format!(in alloc; "{number} differences")?);
    }
    let mut out = String::new(alloc);
    for (i, difference) in differences.iter().enumerate() {
        if i > 0 {
            out.push(' ')?;
        }
        put_difference(alloc, &mut out, difference)?;
    }
    Ok(out)
}

fn answer(alloc: Global, answer: Result<Vec<Difference>, DocError>) -> Result<String, Fault> {
    match answer {
        Ok(differences) => print_all(alloc, &differences),
        Err(error) => refusal(alloc, error),
    }
}

/// `differences DOCUMENT HASHES HASHES`: from those to these.
pub fn between<S: Sequence>(
    document: &Document<S>,
    world: &World<S>,
    words: &mut Words,
) -> Result<String, Fault> {
    let from = hashes(world, words.next()?)?;
    let to = hashes(world, words.next()?)?;
    answer(world.alloc, document.differences(&from, &to))
}

/// `differences_since DOCUMENT HASHES`.
pub fn since<S: Sequence>(
    document: &Document<S>,
    world: &World<S>,
    words: &mut Words,
) -> Result<String, Fault> {
    let heads = hashes(world, words.next()?)?;
    answer(world.alloc, document.differences_since(&heads))
}

/// `effect DOCUMENT HASHES`: the text before the change with the first of the hashes, and what the change did.
pub fn effect<S: Sequence>(
    document: &Document<S>,
    world: &World<S>,
    words: &mut Words,
) -> Result<String, Fault> {
    let hashes = hashes(world, words.next()?)?;
    let Some(hash) = hashes.first() else {
        return Err(Fault::Row("no hash"));
    };
    let effect = match document.effect(hash) {
        Ok(effect) => effect,
        Err(error) => return refusal(world.alloc, error),
    };
    let mut out = in_quotes(world.alloc, &effect.text)?;
    out.push(' ')?;
    out.push_str(&print_all(world.alloc, &effect.differences)?)?;
    Ok(out)
}

//! Calls on splices alone.

use std::alloc::Global;
use tp_edit::{asks_nothing, in_range, operation_count};
use tp_test_runner::{Fault, Words, count, lend_splices, splices};

// `in_range LEN SPLICE..`: whether each is in the text that the ones before it leave, where the first has a text of
// `LEN` characters.
fn range(alloc: Global, words: &mut Words) -> Result<String, Fault> {
    let len = count(words.next()?)?;
    let owned = splices(alloc, words.rest())?;
    let is_within = in_range(&lend_splices(alloc, &owned)?, len);
    Ok(format!(in alloc; "{is_within}")?)
}

// `operation_count SPLICE..`: how many operations they make, and whether they ask for nothing.
fn count_operations(alloc: Global, words: &mut Words) -> Result<String, Fault> {
    let owned = splices(alloc, words.rest())?;
    let lent = lend_splices(alloc, &owned)?;
    let count = operation_count(&lent);
    let beyond = if asks_nothing(&lent) { ", nothing" } else { "" };
    Ok(format!(in alloc; "{count}{beyond}")?)
}

/// Makes a call on splices; `None` where the word is none of these.
pub fn call(alloc: Global, word: &str, words: &mut Words) -> Option<Result<String, Fault>> {
    Some(match word {
        "in_range" => range(alloc, words),
        "operation_count" => count_operations(alloc, words),
        _ => return None,
    })
}

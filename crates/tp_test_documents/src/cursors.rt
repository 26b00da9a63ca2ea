//! Calls that make cursors.

use crate::lists::hashes;
use crate::world::World;
use tp_rga::Sequence;
use tp_test_runner::{Fault, Words, count, keep_cursor};

// `cursor NAME DOCUMENT PLACE`.
fn cursor<S: Sequence>(world: &mut World<S>, words: &mut Words) -> Result<String, Fault> {
    let name = words.next()?;
    let document = world.documents.get(words.next()?)?;
    let answer = document.cursor(count(words.next()?)?);
    keep_cursor(&mut world.cursors, name, answer)
}

// `cursor_at NAME DOCUMENT PLACE HASHES`.
fn cursor_at<S: Sequence>(world: &mut World<S>, words: &mut Words) -> Result<String, Fault> {
    let name = words.next()?;
    let document = world.documents.get(words.next()?)?;
    let at = count(words.next()?)?;
    let heads = hashes(world, words.next()?)?;
    let answer = document.cursor_at(at, &heads);
    keep_cursor(&mut world.cursors, name, answer)
}

/// Makes a call that makes a cursor; `None` where the word is none of these.
pub fn call<S: Sequence>(
    world: &mut World<S>,
    word: &str,
    words: &mut Words,
) -> Option<Result<String, Fault>> {
    match word {
        "cursor" => Some(cursor(world, words)),
        "cursor_at" => Some(cursor_at(world, words)),
        _ => None,
    }
}

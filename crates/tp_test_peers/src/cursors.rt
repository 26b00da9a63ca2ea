//! Calls that make cursors in a peer's document, and say where they are.

use crate::world::World;
use tp_test_runner::{Fault, Words, answer_position, count, hashes, keep_cursor};

// `cursor NAME PEER PLACE`.
fn cursor(world: &mut World, words: &mut Words) -> Result<String, Fault> {
    let name = words.next()?;
    let peer = world.peers.get(words.next()?)?;
    let answer = peer.document().cursor(count(words.next()?)?);
    keep_cursor(&mut world.cursors, name, answer)
}

// `cursor_at NAME PEER PLACE HASHES`.
fn cursor_at(world: &mut World, words: &mut Words) -> Result<String, Fault> {
    let name = words.next()?;
    let peer = world.peers.get(words.next()?)?;
    let at = count(words.next()?)?;
    let heads = hashes(&world.changes, words.next()?)?;
    let answer = peer.document().cursor_at(at, &heads);
    keep_cursor(&mut world.cursors, name, answer)
}

// `position PEER CURSOR`: a cursor is of no peer, so one that was made in a peer serves in each.
fn position(world: &World, words: &mut Words) -> Result<String, Fault> {
    let peer = world.peers.get(words.next()?)?;
    let cursor = world.cursors.get(words.next()?)?;
    answer_position(world.alloc, peer.document().cursor_position(cursor))
}

/// Makes a call on a cursor; `None` where the word is none of these.
pub fn call(world: &mut World, word: &str, words: &mut Words) -> Option<Result<String, Fault>> {
    Some(match word {
        "cursor" => cursor(world, words),
        "cursor_at" => cursor_at(world, words),
        "position" => position(world, words),
        _ => return None,
    })
}

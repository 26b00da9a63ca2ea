//! Calls that read a peer, and what needs none.

use crate::world::{RowPeer, World};
use rand_chacha::ChaCha20Rng;
use rand_core::SeedableRng;
use std::alloc::Global;
use tp_opid::Actor;
use tp_peer::{PeerError, fresh_actor};
use tp_test_runner::{Fault, Words, byte, hashes, in_quotes, names, names_of, refusal};

fn answer_text(alloc: Global, answer: Result<String, PeerError>) -> Result<String, Fault> {
    match answer {
        Ok(text) => in_quotes(alloc, text.as_str()),
        Err(error) => refusal(alloc, error),
    }
}

fn heads(peer: &RowPeer, world: &World) -> Result<String, Fault> {
    match peer.heads() {
        Ok(heads) => names(&world.changes, heads),
        Err(error) => refusal(world.alloc, error),
    }
}

// `read_at PEER HASHES`.
fn read_at(peer: &RowPeer, world: &World, words: &mut Words) -> Result<String, Fault> {
    let at = hashes(&world.changes, words.next()?)?;
    answer_text(world.alloc, peer.read_at(&at))
}

fn put_actor(alloc: Global, out: &mut String, actor: &Actor) -> Result<(), Fault> {
    match actor.to_text(alloc) {
        Ok(text) => Ok(out.push_str(text.as_str())?),
        Err(_) => Err(Fault::Memory),
    }
}

// `state PEER`: `runs` or `stopped`, how many changes are applied, and its actor.
fn state(alloc: Global, peer: &RowPeer) -> Result<String, Fault> {
    let runs = if peer.is_stopped() { "stopped" } else { "runs" };
    let count = peer.change_count();
    let mut out = format!(in alloc; "{runs}, {count} changes, ")?;
    put_actor(alloc, &mut out, &peer.actor())?;
    Ok(out)
}

/// `fresh BYTE`: the first two actors that are drawn from the generator whose key is the byte 32 times.
pub fn fresh(alloc: Global, words: &mut Words) -> Result<String, Fault> {
    let byte = byte(words.next()?)?;
    let mut generator = ChaCha20Rng::from_seed([byte; 32]);
    let mut out = String::new(alloc);
    put_actor(alloc, &mut out, &fresh_actor(&mut generator))?;
    out.push(' ')?;
    put_actor(alloc, &mut out, &fresh_actor(&mut generator))?;
    Ok(out)
}

/// The text of a peer, in quotes.
pub fn text(alloc: Global, peer: &RowPeer) -> Result<String, Fault> {
    answer_text(alloc, peer.read())
}

/// Makes a call `WORD PEER ..` that changes nothing.
pub fn call(world: &World, word: &str, words: &mut Words) -> Result<String, Fault> {
    let peer = world.peers.get(words.next()?)?;
    match word {
        "read" => text(world.alloc, peer),
        "read_at" => read_at(peer, world, words),
        "heads" => heads(peer, world),
        "changes" => names_of(&world.changes, peer.document().changes()),
        "state" => state(world.alloc, peer),
        _ => Err(Fault::Row("no such call")),
    }
}

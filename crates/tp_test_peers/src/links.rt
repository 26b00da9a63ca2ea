//! Calls that make, receive and forget messages on links.

use crate::peers::put_applied;
use crate::world::{RowPeer, World};
use std::alloc::Global;
use std::fmt::Display;
use tp_change::Change;
use tp_peer::{Link, Outgoing, PeerError, Received};
use tp_sync::Message;
use tp_test_runner::{Fault, Shelf, Words, answer_ok, number, refusal};

fn link(words: &mut Words) -> Result<Link, Fault> {
    Ok(Link(number(words.next()?)?))
}

fn keep(shelf: &mut Shelf<Vec<u8>>, name: &str, sent: Outgoing) -> Result<String, Fault> {
    let alloc = shelf.alloc();
    let len = sent.bytes.len();
    let again = if sent.again { ", again" } else { "" };
    shelf.put(name, sent.bytes)?;
    Ok(format!(in alloc; "{len} bytes{again}")?)
}

/// Gives the bytes of a message a name, and answers how many there are, with `again` where it takes what is due from the
/// first again; `none`; or the refusal.
pub fn keep_sent<E: Display + Drop>(
    shelf: &mut Shelf<Vec<u8>>,
    name: &str,
    sent: Result<Option<Outgoing>, E>,
) -> Result<String, Fault> {
    match sent {
        Ok(Some(sent)) => keep(shelf, name, sent),
        Ok(None) => Ok(String::from_str(shelf.alloc(), "none")?),
        Err(error) => refusal(shelf.alloc(), error),
    }
}

// `send PEER LINK NAME`.
fn send(world: &mut World, words: &mut Words) -> Result<String, Fault> {
    let peer = world.peers.get_mut(words.next()?)?;
    let link = link(words)?;
    let name = words.next()?;
    let sent = peer.generate_bytes(link);
    keep_sent(&mut world.bytes, name, sent)
}

// What a message led to, and `same` where it declares the heads of the one before.
fn reply(changes: &Shelf<Change>, answer: Result<Received, PeerError>) -> Result<String, Fault> {
    match answer {
        Ok(received) => {
            let mut out = String::new(changes.alloc());
            put_applied(changes, &mut out, &received.applied)?;
            if received.same_heads {
                out.push_str(", same")?;
            }
            Ok(out)
        }
        Err(error) => refusal(changes.alloc(), error),
    }
}

// `receive PEER LINK BYTES`.
fn receive(world: &mut World, words: &mut Words) -> Result<String, Fault> {
    let peer = world.peers.get_mut(words.next()?)?;
    let link = link(words)?;
    let bytes = world.bytes.get(words.next()?)?;
    let answer = peer.receive_bytes(link, bytes);
    reply(&world.changes, answer)
}

// `receive_message PEER LINK BYTES`: the message, once it was decoded.
fn receive_message(world: &mut World, words: &mut Words) -> Result<String, Fault> {
    let peer = world.peers.get_mut(words.next()?)?;
    let link = link(words)?;
    match Message::decode(world.alloc, world.bytes.get(words.next()?)?) {
        Ok(message) => reply(&world.changes, peer.receive_message(link, message)),
        Err(error) => refusal(world.alloc, error),
    }
}

// `forget PEER LINK`.
fn forget(world: &mut World, words: &mut Words) -> Result<String, Fault> {
    let peer = world.peers.get_mut(words.next()?)?;
    match peer.forget_link(link(words)?) {
        Ok(()) => answer_ok(world.alloc),
        Err(error) => refusal(world.alloc, error),
    }
}

fn greet_each(alloc: Global, peer: &mut RowPeer, count: u64) -> Result<String, Fault> {
    for number in 0..count {
        match peer.generate_bytes(Link(number)) {
            Ok(_) => {}
            Err(error) => return refusal(alloc, error),
        }
    }
    answer_ok(alloc)
}

// `greet PEER N`: makes a message on each of the links 0 to N - 1.
fn greet(world: &mut World, words: &mut Words) -> Result<String, Fault> {
    let peer = world.peers.get_mut(words.next()?)?;
    greet_each(world.alloc, peer, number(words.next()?)?)
}

/// Makes a call on a link; `None` where the word is none of these.
pub fn call(world: &mut World, word: &str, words: &mut Words) -> Option<Result<String, Fault>> {
    Some(match word {
        "send" => send(world, words),
        "receive" => receive(world, words),
        "receive_message" => receive_message(world, words),
        "forget" => forget(world, words),
        "greet" => greet(world, words),
        _ => return None,
    })
}

//! Calls on messages and their bytes.

use crate::world::World;
use std::alloc::Global;
use tp_change::Change;
use tp_sync::{Message, SyncError};
use tp_test_runner::{Fault, Shelf, Words, keep_bytes, names_of, put_names, refusal};

/// Adds what a message says: `heads [..] wants [..] known [..] changes [..]`; without what is known in version 1.
pub fn put_message(
    changes: &Shelf<Change>,
    out: &mut String,
    message: &Message,
) -> Result<(), Fault> {
    out.push_str("heads ")?;
    put_names(changes, out, message.heads())?;
    out.push_str(" wants ")?;
    put_names(changes, out, message.wants())?;
    if message.version() != 1 {
        out.push_str(" known ")?;
        put_names(changes, out, message.known())?;
    }
    out.push_str(" changes ")?;
    let carried = names_of(changes, message.changes())?;
    Ok(out.push_str(carried.as_str())?)
}

fn line_of_message(changes: &Shelf<Change>, message: &Message) -> Result<String, Fault> {
    let mut out = String::new(changes.alloc());
    put_message(changes, &mut out, message)?;
    Ok(out)
}

/// The message as it comes out of its bytes.
pub fn decode_again(alloc: Global, message: &Message) -> Result<Message, SyncError> {
    let bytes = message.encode()?;
    Message::decode(alloc, &bytes)
}

// `encode_message BYTES MESSAGE`: gives its bytes a name, and answers how many there are.
fn encode(world: &mut World, words: &mut Words) -> Result<String, Fault> {
    let name = words.next()?;
    match world.messages.get(words.next()?)?.encode() {
        Ok(bytes) => keep_bytes(&mut world.bytes, name, bytes),
        Err(error) => refusal(world.alloc, error),
    }
}

// `decode_message MESSAGE BYTES`: gives the message a name, and answers what it says; or the refusal.
fn decode(world: &mut World, words: &mut Words) -> Result<String, Fault> {
    let name = words.next()?;
    match Message::decode(world.alloc, world.bytes.get(words.next()?)?) {
        Ok(message) => {
            let answer = line_of_message(&world.changes, &message)?;
            world.messages.put(name, message)?;
            Ok(answer)
        }
        Err(error) => refusal(world.alloc, error),
    }
}

/// Makes a call on messages; `None` where the word is none of these.
pub fn call(world: &mut World, word: &str, words: &mut Words) -> Option<Result<String, Fault>> {
    match word {
        "encode_message" => Some(encode(world, words)),
        "decode_message" => Some(decode(world, words)),
        _ => None,
    }
}

//! Calls on sync states: messages are made and received.

use crate::messages::{decode_again, put_message};
use crate::world::{Doc, World};
use tp_change::Change;
use tp_document::Applied;
use tp_sync::{Message, SyncError, SyncState, generate, receive, receive_with};
use tp_test_runner::{Fault, Few, Shelf, Words, answer_ok, count, names, refusal, reply};

// `state NAME`: a fresh one.
fn make(states: &mut Shelf<SyncState>, words: &mut Words) -> Result<String, Fault> {
    let alloc = states.alloc();
    states.put(words.next()?, SyncState::new(alloc))?;
    answer_ok(alloc)
}

// `theirs STATE`: the heads that the other declared last, or `none`.
fn theirs(world: &World, words: &mut Words) -> Result<String, Fault> {
    match world.states.get(words.next()?)?.theirs() {
        Some(heads) => names(&world.changes, heads),
        None => Ok(String::from_str(world.alloc, "none")?),
    }
}

// What a message says, with `again` where it begins with the first change again.
fn line_of_sent(changes: &Shelf<Change>, message: &Message, again: bool) -> Result<String, Fault> {
    let mut out = String::new(changes.alloc());
    put_message(changes, &mut out, message)?;
    if again {
        out.push_str(" again")?;
    }
    Ok(out)
}

// Gives a message its name.
fn keep(
    messages: &mut Shelf<Message>,
    changes: &Shelf<Change>,
    name: &str,
    message: Message,
    again: bool,
) -> Result<String, Fault> {
    let answer = line_of_sent(changes, &message, again)?;
    messages.put(name, message)?;
    Ok(answer)
}

// `generate MESSAGE DOCUMENT STATE`: what the message says, or `quiet`.
fn send(world: &mut World, words: &mut Words) -> Result<String, Fault> {
    let alloc = world.alloc;
    let name = words.next()?;
    let document = world.documents.get(words.next()?)?;
    let state = world.states.get_mut(words.next()?)?;
    match generate(alloc, document, state) {
        Ok(Some(message)) => {
            let again = state.again();
            keep(&mut world.messages, &world.changes, name, message, again)
        }
        Ok(None) => Ok(String::from_str(alloc, "quiet")?),
        Err(error) => refusal(alloc, error),
    }
}

// A document receives a copy of a message, with a keeper where a number is given.
fn receive_copy(
    document: &mut Doc,
    state: &mut SyncState,
    message: Message,
    left: Option<usize>,
) -> Result<Applied, SyncError> {
    match left {
        Some(left) => receive_with(document, state, message, &mut Few { left }),
        None => receive(document, state, message),
    }
}

// `receive DOCUMENT STATE MESSAGE`, or `receive_with KEPT DOCUMENT STATE MESSAGE`: the keeper keeps `KEPT` changes and
// refuses those after them. The document receives what comes out of the message's bytes, so that it can come again.
fn take(world: &mut World, left: Option<usize>, words: &mut Words) -> Result<String, Fault> {
    let alloc = world.alloc;
    let document = world.documents.get_mut(words.next()?)?;
    let state = world.states.get_mut(words.next()?)?;
    let message = match decode_again(alloc, world.messages.get(words.next()?)?) {
        Ok(message) => message,
        Err(error) => return refusal(alloc, error),
    };
    let answer = receive_copy(document, state, message, left);
    reply(&world.changes, answer)
}

fn take_few(world: &mut World, words: &mut Words) -> Result<String, Fault> {
    let left = count(words.next()?)?;
    take(world, Some(left), words)
}

/// Makes a call on sync states; `None` where the word is none of these.
pub fn call(world: &mut World, word: &str, words: &mut Words) -> Option<Result<String, Fault>> {
    Some(match word {
        "state" => make(&mut world.states, words),
        "theirs" => theirs(world, words),
        "generate" => send(world, words),
        "receive" => take(world, None, words),
        "receive_with" => take_few(world, words),
        _ => return None,
    })
}

//! Calls on a seat of a served peer.

use crate::links::keep_sent;
use crate::table::Table;
use crate::world::World;
use std::alloc::Global;
use tp_peer::Received;
use tp_served::ServedError;
use tp_sync::Message;
use tp_test_runner::{Fault, Shelf, Words, answer_ok, in_quotes, number, refusal, text};

// `read TABLE SEAT`.
fn read(alloc: Global, table: &mut Table) -> Result<String, Fault> {
    match table.read() {
        Ok(text) => in_quotes(alloc, text.as_str()),
        Err(error) => refusal(alloc, error),
    }
}

// `insert TABLE SEAT TEXT`: at the start.
fn insert(alloc: Global, table: &mut Table, words: &mut Words) -> Result<String, Fault> {
    let text = text(alloc, words.next()?)?;
    match table.insert(text.as_str()) {
        Ok(Some(_)) => answer_ok(alloc),
        Ok(None) => Ok(String::from_str(alloc, "nothing")?),
        Err(error) => refusal(alloc, error),
    }
}

// `send TABLE SEAT BYTES`.
fn send(shelf: &mut Shelf<Vec<u8>>, table: &mut Table, words: &mut Words) -> Result<String, Fault> {
    let name = words.next()?;
    keep_sent(shelf, name, table.send())
}

// How many changes of a message entered, are held and were refused, and `same` where it declares the heads of the one
// before.
fn line_of_received(alloc: Global, answer: Result<Received, ServedError>) -> Result<String, Fault> {
    match answer {
        Ok(received) => {
            let (entered, held) = (received.applied.applied.len(), received.applied.held.len());
            let refused = received.applied.refused.len();
            let same = if received.same_heads { ", same" } else { "" };
            Ok(format!(in alloc; "{entered} entered, {held} held, {refused} refused{same}")?)
        }
        Err(error) => refusal(alloc, error),
    }
}

// `receive TABLE SEAT BYTES`.
fn receive(shelf: &Shelf<Vec<u8>>, table: &mut Table, words: &mut Words) -> Result<String, Fault> {
    let bytes = shelf.get(words.next()?)?;
    line_of_received(shelf.alloc(), table.receive(bytes))
}

// `receive_message TABLE SEAT BYTES`: the message, once it was decoded.
fn receive_message(
    shelf: &Shelf<Vec<u8>>,
    table: &mut Table,
    words: &mut Words,
) -> Result<String, Fault> {
    match Message::decode(shelf.alloc(), shelf.get(words.next()?)?) {
        Ok(message) => line_of_received(shelf.alloc(), table.receive_message(message)),
        Err(error) => refusal(shelf.alloc(), error),
    }
}

// `forget TABLE SEAT`.
fn forget(alloc: Global, table: &mut Table) -> Result<String, Fault> {
    match table.forget() {
        Ok(()) => answer_ok(alloc),
        Err(error) => refusal(alloc, error),
    }
}

// `meet TABLE SEAT`: with another one.
fn meet(alloc: Global, table: &mut Table) -> Result<String, Fault> {
    if table.meet() {
        answer_ok(alloc)
    } else {
        Err(Fault::Row("there is one seat"))
    }
}

/// Makes a call on a seat.
pub fn call(world: &mut World, word: &str, words: &mut Words) -> Result<String, Fault> {
    let table = world.tables.get_mut(words.next()?)?;
    if !table.turn_to(number(words.next()?)?) {
        return Err(Fault::Row("no such seat"));
    }
    match word {
        "read" => read(world.alloc, table),
        "insert" => insert(world.alloc, table, words),
        "send" => send(&mut world.bytes, table, words),
        "receive" => receive(&world.bytes, table, words),
        "receive_message" => receive_message(&world.bytes, table, words),
        "forget" => forget(world.alloc, table),
        "meet" => meet(world.alloc, table),
        _ => Err(Fault::Row("no such call")),
    }
}

//! Calls that open and close served peers.

use crate::peers::journal_of;
use crate::table::{Table, Unended};
use crate::world::{RowPeer, World};
use tp_opid::DocId;
use tp_peer::Peer;
use tp_test_runner::{Fault, Shelf, Words, actor, answer_ok, count, in_quotes, number, refusal};

// Serves a peer, or answers why not, and whether it came back.
fn serve(
    tables: &mut Shelf<Table>,
    name: &str,
    peer: RowPeer,
    seats: usize,
) -> Result<String, Fault> {
    let alloc = tables.alloc();
    match Table::open(alloc, peer, seats) {
        Ok(table) => {
            tables.put(name, table)?;
            answer_ok(alloc)
        }
        Err((error, is_back)) => {
            let error = refusal(alloc, error)?;
            let back = if is_back { "the peer back" } else { "no peer" };
            Ok(format!(in alloc; "{error}, {back}")?)
        }
    }
}

// `open NAME ACTOR SEATS [armed=K]`: a new peer, served with `SEATS` seats; the next append to its journal fails, and
// keeps K bytes.
fn open(world: &mut World, words: &mut Words) -> Result<String, Fault> {
    let name = words.next()?;
    let actor = actor(words.next()?)?;
    let seats = count(words.next()?)?;
    let journal = journal_of(&world.bytes, words)?;
    let armed = words.option("armed");
    match Peer::create(world.alloc, journal, DocId([7; 16]), actor) {
        Ok(mut peer) => {
            if let Some(kept) = armed {
                peer.arm(number(kept)?);
            }
            serve(&mut world.tables, name, peer, seats)
        }
        Err(unopened) => refusal(world.alloc, unopened.error),
    }
}

// Keeps the peer, or the table that wasn't closed.
fn keep(world: &mut World, name: String, ended: Result<RowPeer, Unended>) -> Result<String, Fault> {
    match ended {
        Ok(peer) => {
            world.peers.put_back((name, peer))?;
            answer_ok(world.alloc)
        }
        Err(Unended { table, error }) => {
            if let Some(table) = table {
                world.tables.put_back((name, table))?;
            }
            refusal(world.alloc, error)
        }
    }
}

// `close TABLE`: with all seats.
fn close(world: &mut World, words: &mut Words) -> Result<String, Fault> {
    let (name, table) = world.tables.take(words.next()?)?;
    keep(world, name, table.close())
}

// `close_without TABLE SEAT`: with all seats but one.
fn close_without(world: &mut World, words: &mut Words) -> Result<String, Fault> {
    let name = words.next()?;
    let number = number(words.next()?)?;
    if !world.tables.get_mut(name)?.turn_to(number) {
        return Err(Fault::Row("no such seat"));
    }
    let (name, table) = world.tables.take(name)?;
    keep(world, name, table.close_without())
}

// `peer TABLE`, of a closed one: how many changes it has, and the text.
fn peer(world: &World, words: &mut Words) -> Result<String, Fault> {
    let peer = world.peers.get(words.next()?)?;
    let count = peer.change_count();
    match peer.read() {
        Ok(text) => {
            let text = in_quotes(world.alloc, text.as_str())?;
            Ok(format!(in world.alloc; "{count} changes, {text}")?)
        }
        Err(error) => refusal(world.alloc, error),
    }
}

// `about TABLE`: how many seats, and the first byte of the document's identifier.
fn about(world: &World, words: &mut Words) -> Result<String, Fault> {
    let table = world.tables.get(words.next()?)?;
    let (seats, byte) = (table.seat_count(), table.id().0[0]);
    Ok(format!(in world.alloc; "{seats} seats, document {byte}")?)
}

/// Opens or closes a served peer, or tells of it; `None` where the word is none of these.
pub fn call(world: &mut World, word: &str, words: &mut Words) -> Option<Result<String, Fault>> {
    Some(match word {
        "open" => open(world, words),
        "close" => close(world, words),
        "close_without" => close_without(world, words),
        "peer" => peer(world, words),
        "about" => about(world, words),
        _ => return None,
    })
}

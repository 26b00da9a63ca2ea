//! Calls that open, fork, merge and end peers.

use crate::world::{RowPeer, World};
use std::alloc::Global;
use std::fmt::Display;
use tp_change::Change;
use tp_document::Applied;
use tp_journal::{FuseJournal, MemJournal, header, put_record};
use tp_opid::{Actor, DocId};
use tp_peer::{Peer, PeerError, Unopened};
use tp_test_runner::{
    Fault, Runs, Shelf, Words, actor, answer_ok, count, document_id, firsts, keep_bytes, number,
    put_kept, put_name, range, refusal,
};

// `[on=BYTES]`: a copy of these bytes; none where there are none named.
fn bytes_of(shelf: &Shelf<Vec<u8>>, words: &mut Words) -> Result<Vec<u8>, Fault> {
    match words.option("on") {
        Some(name) => Ok(Vec::from_slice(shelf.alloc(), shelf.get(name)?)?),
        None => Ok(Vec::new(shelf.alloc())),
    }
}

/// `[on=BYTES] [append=K] [cut=0]`: the journal with these bytes, whose next append fails and keeps K bytes, and whose next
/// cut fails.
pub fn journal_of(shelf: &Shelf<Vec<u8>>, words: &mut Words) -> Result<FuseJournal, Fault> {
    let mut journal = FuseJournal::new(MemJournal::new(bytes_of(shelf, words)?));
    if let Some(kept) = words.option("append") {
        journal.arm(number(kept)?);
    }
    if words.option("cut").is_some() {
        journal.arm_cut();
    }
    Ok(journal)
}

// Gives a peer its name, or answers why there is none, and how many bytes its journal has then.
fn keep(
    peers: &mut Shelf<RowPeer>,
    name: &str,
    made: Result<RowPeer, Unopened<FuseJournal>>,
) -> Result<String, Fault> {
    let alloc = peers.alloc();
    match made {
        Ok(peer) => {
            peers.put(name, peer)?;
            answer_ok(alloc)
        }
        Err(Unopened { journal, error }) => {
            let left = journal.len();
            let error = refusal(alloc, error)?;
            Ok(format!(in alloc; "{error}, {left} bytes")?)
        }
    }
}

// `[id=ID]`: the identifier that is a byte sixteen times, or the one with these digits.
fn id_of(words: &mut Words) -> Result<DocId, Fault> {
    let word = words.option("id").unwrap_or("7");
    match DocId::from_text(word) {
        Ok(id) => Ok(id),
        Err(_) => document_id(word),
    }
}

// `create NAME ACTOR [id=ID] [on=BYTES] [append=K] [cut=0]`.
fn create(world: &mut World, words: &mut Words) -> Result<String, Fault> {
    let name = words.next()?;
    let actor = actor(words.next()?)?;
    let id = id_of(words)?;
    let journal = journal_of(&world.bytes, words)?;
    let made = Peer::create(world.alloc, journal, id, actor);
    keep(&mut world.peers, name, made)
}

// `reopen NAME ACTOR on=BYTES [append=K] [cut=0]`.
fn reopen(world: &mut World, words: &mut Words) -> Result<String, Fault> {
    let name = words.next()?;
    let actor = actor(words.next()?)?;
    let journal = journal_of(&world.bytes, words)?;
    let made = Peer::reopen(world.alloc, journal, actor);
    keep(&mut world.peers, name, made)
}

// The bytes of a journal with these changes.
fn journal_with(alloc: Global, id: DocId, changes: &[Change]) -> Result<Vec<u8>, Fault> {
    let mut bytes = header(alloc, id).ok().ok_or(Fault::Memory)?;
    for change in changes {
        bytes = put_record(bytes, change).ok().ok_or(Fault::Memory)?;
    }
    Ok(bytes)
}

// `branches NAME FROM..TO [id=ID]`: names the bytes of a journal with the first changes of the actors with the numbers from
// `FROM` up to, but without, `TO`. Each change inserts one character.
fn branches(world: &mut World, words: &mut Words) -> Result<String, Fault> {
    let name = words.next()?;
    let (from, to) = range(words.next()?)?;
    let made = firsts(world.alloc, from, to, "x")?;
    let bytes = journal_with(world.alloc, id_of(words)?, &made)?;
    keep_bytes(&mut world.bytes, name, bytes)
}

// `fork NAME OF ACTOR [on=BYTES] [append=K] [cut=0]`.
fn fork(world: &mut World, words: &mut Words) -> Result<String, Fault> {
    let name = words.next()?;
    let of = words.next()?;
    let actor = actor(words.next()?)?;
    let journal = journal_of(&world.bytes, words)?;
    let made = world.peers.get(of)?.fork(journal, actor);
    keep(&mut world.peers, name, made)
}

// `create_armed ACTOR`: for each number of bytes that the failing append of a header keeps, from 0 to all 24, why no peer
// was created, why none is opened on the journal then, and what comes of creating one anew.
fn create_armed(world: &World, words: &mut Words) -> Result<String, Fault> {
    let actor = actor(words.next()?)?;
    let mut runs = Runs::new(world.alloc, 0);
    for kept in 0..25 {
        runs.add(created_anew(world.alloc, actor, kept)?)?;
    }
    runs.end()
}

fn created_anew(alloc: Global, actor: Actor, kept: u64) -> Result<String, Fault> {
    let id = DocId([7; 16]);
    let mut journal = FuseJournal::new(MemJournal::new(Vec::new(alloc)));
    journal.arm(kept);
    let Unopened { journal, error } = match Peer::create(alloc, journal, id, actor) {
        Ok(_) => return Err(Fault::Row("the append didn't fail")),
        Err(unopened) => unopened,
    };
    let unopened = match Peer::reopen(alloc, journal, actor) {
        Ok(_) => return Ok(format!(in alloc; "{error} opened")?),
        Err(unopened) => unopened,
    };
    let again = unopened.error;
    match Peer::create(alloc, unopened.journal, id, actor) {
        Ok(_) => Ok(format!(in alloc; "{error} {again} created")?),
        Err(unopened) => {
            let last = unopened.error;
            Ok(format!(in alloc; "{error} {again} {last}")?)
        }
    }
}

// `arm PEER K`: its journal's next append fails, and keeps K bytes.
fn arm(world: &mut World, words: &mut Words) -> Result<String, Fault> {
    let peer = world.peers.get_mut(words.next()?)?;
    peer.arm(number(words.next()?)?);
    answer_ok(world.alloc)
}

// `arm_cut PEER`: its journal's next cut fails. `disarm PEER`: neither fails.
fn arm_cut(world: &mut World, words: &mut Words) -> Result<String, Fault> {
    world.peers.get_mut(words.next()?)?.arm_cut();
    answer_ok(world.alloc)
}

fn disarm(world: &mut World, words: &mut Words) -> Result<String, Fault> {
    world.peers.get_mut(words.next()?)?.disarm();
    answer_ok(world.alloc)
}

// `journal_len PEER`: how many bytes its journal has.
fn journal_len(world: &World, words: &mut Words) -> Result<String, Fault> {
    let len = world.peers.get(words.next()?)?.journal_len();
    Ok(format!(in world.alloc; "{len} bytes")?)
}

// Takes a peer out, and ends it: its journal's bytes.
fn stop_peer(peers: &mut Shelf<RowPeer>, name: &str) -> Result<Vec<u8>, Fault> {
    let (_name, peer) = peers.take(name)?;
    Ok(peer.stop().into_vec())
}

// `stop PEER BYTES`: ends the peer, and gives its journal's bytes a name.
fn stop(world: &mut World, words: &mut Words) -> Result<String, Fault> {
    let (name, bytes) = (words.next()?, words.next()?);
    let journal = stop_peer(&mut world.peers, name)?;
    keep_bytes(&mut world.bytes, bytes, journal)
}

/// What became of the changes: `entered [..] held [..]`, and each that was refused with why.
pub fn put_applied(
    changes: &Shelf<Change>,
    out: &mut String,
    applied: &Applied,
) -> Result<(), Fault> {
    put_kept(changes, out, applied)?;
    for (hash, error) in &applied.refused {
        out.push_str(" refused ")?;
        put_name(changes, out, hash)?;
        write!(out, ":{error}")?;
    }
    Ok(())
}

fn reply<E: Display + Drop>(
    changes: &Shelf<Change>,
    answer: Result<Applied, E>,
) -> Result<String, Fault> {
    match answer {
        Ok(applied) => {
            let mut out = String::new(changes.alloc());
            put_applied(changes, &mut out, &applied)?;
            Ok(out)
        }
        Err(error) => refusal(changes.alloc(), error),
    }
}

// Takes out the peer that receives, so that the other one can be lent beside it.
fn merge_named(
    peers: &mut Shelf<RowPeer>,
    into: &str,
    from: &str,
) -> Result<Result<Applied, PeerError>, Fault> {
    let mut into = peers.take(into)?;
    let answer = match peers.get(from) {
        Ok(from) => Ok(into.1.merge(from)),
        Err(fault) => Err(fault),
    };
    peers.put_back(into)?;
    answer
}

// `merge INTO FROM`.
fn merge(world: &mut World, words: &mut Words) -> Result<String, Fault> {
    let answer = merge_named(&mut world.peers, words.next()?, words.next()?)?;
    reply(&world.changes, answer)
}

/// Makes a call that opens, forks, merges or ends a peer; `None` where the word is none of these.
pub fn call(world: &mut World, word: &str, words: &mut Words) -> Option<Result<String, Fault>> {
    Some(match word {
        "create" => create(world, words),
        "reopen" => reopen(world, words),
        "fork" => fork(world, words),
        "merge" => merge(world, words),
        "stop" => stop(world, words),
        "create_armed" => create_armed(world, words),
        "branches" => branches(world, words),
        "arm" => arm(world, words),
        "arm_cut" => arm_cut(world, words),
        "disarm" => disarm(world, words),
        "journal_len" => journal_len(world, words),
        _ => return None,
    })
}

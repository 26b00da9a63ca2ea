//! Calls that run a session over bytes.

use crate::answers::end;
use crate::meeting::agree;
use crate::parts::{Framing, Side};
use crate::world::{RowPeer, World};
use std::alloc::Global;
use tp_frame::{Framer, PartFramer};
use tp_journal::{FuseJournal, MemJournal};
use tp_net::run_session;
use tp_opid::Actor;
use tp_peer::Link;
use tp_session::{LinkedPeer, NetError, Role};
use tp_test_runner::{Fault, Input, Judge, Output, Runs, Shelf, Words, of_cuts};

// The actor of each fork, which no row names.
const FORKED: Actor = Actor([255; 16]);

/// A session to be run over a fork of a peer, where the other side sends these bytes: a fork of the other peer, if there
/// is one, which then takes what was sent, and meets the first again.
#[derive(Clone, Copy)]
struct Plan<'a> {
    shelf: &'a Shelf<Vec<u8>>,
    role: Role,
    peer: &'a RowPeer,
    bytes: &'a [u8],
    other: Option<&'a RowPeer>,
}

/// How a session ended, and whether the writer failed.
#[derive(Drop)]
struct Outcome {
    answer: String,
    failed: bool,
}

fn role(word: &str) -> Result<Role, Fault> {
    match word {
        "client" => Ok(Role::Client),
        "server" => Ok(Role::Server),
        _ => Err(Fault::Row("no role")),
    }
}

// `ROLE PEER BYTES [PEER]`.
fn plan_of<'a>(world: &'a World, words: &mut Words) -> Result<Plan<'a>, Fault> {
    Ok(Plan {
        shelf: &world.bytes,
        role: role(words.next()?)?,
        peer: world.peers.get(words.next()?)?,
        bytes: world.bytes.get(words.next()?)?,
        other: match words.take() {
            Some(name) => Some(world.peers.get(name)?),
            None => None,
        },
    })
}

/// Another peer with the same changes, on a journal of its own.
pub fn fork_of(alloc: Global, peer: &RowPeer) -> Result<RowPeer, Fault> {
    let journal = FuseJournal::new(MemJournal::new(Vec::new(alloc)));
    match peer.fork(journal, FORKED) {
        Ok(peer) => Ok(peer),
        Err(_) => Err(Fault::Memory),
    }
}

// Holds the session.
fn hold(
    plan: Plan,
    peer: &mut RowPeer,
    input: &mut Input,
    output: &mut Output,
) -> Result<u64, NetError> {
    let id = peer.document().id();
    let mut host = LinkedPeer::new(peer, Link(0));
    run_session(plan.shelf.alloc(), input, output, plan.role, id, &mut host)
}

// How the session ended over these streams.
fn run_on(
    plan: Plan,
    peer: &mut RowPeer,
    mut input: Input,
    output: &mut Output,
) -> Result<String, Fault> {
    let ended = hold(plan, peer, &mut input, output);
    if output.refused {
        return Err(Fault::Memory);
    }
    end(plan.shelf, ended, peer, &output.bytes)
}

// How the other side's session ended, which took what the first side sent.
fn answer_of_other(plan: Plan, other: &mut RowPeer, sent: &[u8]) -> Result<String, Fault> {
    let role = match plan.role {
        Role::Client => Role::Server,
        Role::Server => Role::Client,
    };
    let mut output = Output::new(Vec::new(plan.shelf.alloc()));
    run_on(Plan { role, ..plan }, other, Input::new(sent), &mut output)
}

// The text that both read after a second session, over streams that don't fail.
fn text_once_mended(plan: Plan, peer: &mut RowPeer, other: &mut RowPeer) -> Result<String, Fault> {
    match plan.role {
        Role::Client => agree(plan.shelf.alloc(), peer, other),
        Role::Server => agree(plan.shelf.alloc(), other, peer),
    }
}

// Adds what became of the other side, and what both read in the end.
fn put_met(
    plan: Plan,
    peer: &mut RowPeer,
    other: &mut RowPeer,
    sent: &[u8],
    answer: &mut String,
) -> Result<(), Fault> {
    let there = answer_of_other(plan, other, sent)?;
    let text = text_once_mended(plan, peer, other)?;
    write!(answer, ", {there}, then {text}")?;
    Ok(())
}

// Adds what became of the other side and what both read in the end, where there is another side.
fn put_other(
    plan: Plan,
    peer: &mut RowPeer,
    sent: &[u8],
    answer: &mut String,
) -> Result<(), Fault> {
    let Some(other) = plan.other else {
        return Ok(());
    };
    let mut other = fork_of(plan.shelf.alloc(), other)?;
    put_met(plan, peer, &mut other, sent, answer)
}

fn outcome_of(
    plan: Plan,
    peer: &mut RowPeer,
    input: Input,
    output: &mut Output,
) -> Result<Outcome, Fault> {
    let mut answer = run_on(plan, peer, input, output)?;
    put_other(plan, peer, &output.bytes, &mut answer)?;
    Ok(Outcome {
        answer,
        failed: output.failed,
    })
}

// Runs the session over a reader, and a writer with as many calls that succeed as said.
fn run_over(plan: Plan, input: Input, succeeds: Option<usize>) -> Result<Outcome, Fault> {
    let mut peer = fork_of(plan.shelf.alloc(), plan.peer)?;
    let mut output = Output::new(Vec::new(plan.shelf.alloc()));
    output.succeeds = succeeds;
    outcome_of(plan, &mut peer, input, &mut output)
}

impl Judge for Plan<'_> {
    fn judge(&self, bytes: &[u8]) -> Result<String, Fault> {
        Ok(run_over(*self, Input::new(bytes), None)?.answer)
    }
}

fn run_by_byte(plan: Plan) -> Result<String, Fault> {
    Ok(run_over(plan, Input::by_byte(plan.bytes), None)?.answer)
}

/// A session that was fed a byte at a time: how it ended, and the most bytes that were held.
#[derive(Drop)]
struct Fed {
    answer: String,
    framed: usize,
    read: usize,
}

// The session over the peer.
fn feed_peer(plan: Plan, peer: &mut RowPeer, side: &mut Side) -> Result<Fed, Fault> {
    let ended = side.run(plan.shelf.alloc(), peer, plan.bytes)?;
    Ok(Fed {
        answer: end(plan.shelf, ended, peer, &side.sent)?,
        framed: side.framed,
        read: side.read,
    })
}

fn feed(plan: Plan, framing: Framing) -> Result<Fed, Fault> {
    let mut peer = fork_of(plan.shelf.alloc(), plan.peer)?;
    let mut side = Side::new(plan.shelf.alloc(), plan.role, &peer, framing);
    feed_peer(plan, &mut peer, &mut side)
}

fn feed_parts(plan: Plan) -> Result<Fed, Fault> {
    feed(plan, Framing::Parts(PartFramer::new(plan.shelf.alloc())))
}

// Runs the session without a reader and a writer, a byte at a time, where frames come whole, and where they come in
// parts.
fn run_by_parts(plan: Plan) -> Result<String, Fault> {
    let whole = feed(plan, Framing::Whole(Framer::new(plan.shelf.alloc())))?;
    let parts = feed_parts(plan)?;
    if whole.answer.as_str() != parts.answer.as_str() {
        return Err(Fault::Row("whole frames are answered otherwise"));
    }
    Ok(parts.answer)
}

// The most bytes of frames and of messages that are held where they come in parts.
fn held_by_parts(plan: Plan) -> Result<String, Fault> {
    let fed = feed_parts(plan)?;
    Ok(format!(in plan.shelf.alloc(); "{}, {}", fed.framed, fed.read)?)
}

// Runs the session where the reader gives a byte at a time, and fails after 0, 1 and so on up to all of them.
fn run_reader_fails(plan: Plan) -> Result<String, Fault> {
    let mut runs = Runs::new(plan.shelf.alloc(), 0);
    for at in 0..=plan.bytes.len() {
        runs.add(run_over(plan, Input::failing(plan.bytes, at), None)?.answer)?;
    }
    runs.end()
}

// Runs the session where the writer fails at its call 0, 1 and so on, until none fails.
fn run_writer_fails(plan: Plan) -> Result<String, Fault> {
    let mut runs = Runs::new(plan.shelf.alloc(), 0);
    for at in 0..1000 {
        let outcome = run_over(plan, Input::new(plan.bytes), Some(at))?;
        runs.add(outcome.answer)?;
        if !outcome.failed {
            break;
        }
    }
    runs.end()
}

fn run_as(word: &str, plan: Plan) -> Result<String, Fault> {
    match word {
        "run" => plan.judge(plan.bytes),
        "run_by_byte" => run_by_byte(plan),
        "run_by_parts" => run_by_parts(plan),
        "held_by_parts" => held_by_parts(plan),
        "run_cuts" => of_cuts(plan.shelf.alloc(), &plan, plan.bytes),
        "run_reader_fails" => run_reader_fails(plan),
        _ => run_writer_fails(plan),
    }
}

/// Makes a call `run ROLE PEER BYTES [PEER]` or one of its kin; `None` where the word is none of these.
pub fn call(world: &World, word: &str, words: &mut Words) -> Option<Result<String, Fault>> {
    match word {
        "run"
        | "run_by_byte"
        | "run_by_parts"
        | "held_by_parts"
        | "run_cuts"
        | "run_reader_fails"
        | "run_writer_fails" => Some(run_planned(world, word, words)),
        _ => None,
    }
}

fn run_planned(world: &World, word: &str, words: &mut Words) -> Result<String, Fault> {
    run_as(word, plan_of(world, words)?)
}

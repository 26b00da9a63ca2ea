//! A line carried out in a world.

ghost use Rattle.std.specs.Prelude.{◌≡◌, ◌++◌, ◌∷◌, [], IfOk, OnOk, IfSome, MatchOption, None};
ghost use Rattle.std.specs.Option.{option_map};
ghost use Rattle.tp_peer.specs.PeerStep.{Read, ReadAt};
ghost use Rattle.tp_headline.specs.Call as events;
ghost use Rattle.tp_headline.specs.Happening.{Next};
ghost use Rattle.tp_event.specs.Views.{event_call_of, event_reply_of};
ghost use Rattle.tp_simulate.specs.Marks.{is_text, last_heads, latest, mark_of, marks_named};
ghost use Rattle.tp_simulate.specs.Playing.{Carries, NextIfEvent, call_with_marks, event_in, event_with};

use crate::asked::{Asked, AskedCall};
use crate::mark::Mark;
use crate::marks::heads_named;
use std::alloc::{AllocError, Global};
use tp_list::{Items, Text};
use tp_opid::{Actor, Hash};
use tp_world::{Answer, Call, Event, Link, PeerCall, PeerReply, Reply, World};

/// A world, and the marks that were set in it.
pub(crate) struct Stage {
    pub(crate) alloc: Global,
    pub(crate) world: World,
    pub(crate) marks: Vec<Mark>,
}

impl Drop for Stage {
    fn drop(self) {
        let Stage {
            alloc: _,
            world: _,
            marks: _,
        } = self;
    }
}

// A copy of the heads of the last read.
fn copied_heads(alloc: Global, world: &World) -> Result<Vec<Hash>, AllocError>
    ensures { IfOk result (λ heads. heads.items ≡ last_heads world.now.reads) }
{
    match world.reads().last() {
        Some(read) => Vec::from_slice(alloc, read.heads()),
        None => Ok(Vec::new(alloc)),
    }
}

fn is_text(reply: &Reply) -> bool
    ensures { result ≡ is_text (event_reply_of reply.now) }
{
    match reply {
        Reply::Answered(Answer::Alone(PeerReply::Text(_))) => true,
        _ => false,
    }
}

impl Stage {
    // Names the heads of the last read.
    fn add_mark(&mut self, name: &str) -> Result<(), AllocError>
        ensures world { self.new.world ≡ self.old.world }
        ensures marks { OnOk result (self.new.marks.items
            ≡ self.old.marks.items ++ mark_of name.now self.old.world ∷ []) }
    {
        let heads = copied_heads(self.alloc, &self.world)?;
        let name = String::from_str(self.alloc, name)?;
        self.marks.push(Mark {
            name: Text::new(name),
            heads: Items::new(heads),
        })?;
        Ok(())
    }
}

// A peer makes a call, or crashes during it.
fn step(stage: &mut Stage, peer: usize, crash: Option<(u64, Actor)>, call: Call) -> Reply
    ensures next { Next stage.old.world (event_with peer crash (event_call_of call.entry))
        (event_reply_of result) stage.new.world }
    ensures marks { stage.new.marks ≡ stage.old.marks }
{
    match crash {
        None => stage.world.step(Event::Call { peer, call }),
        Some(crash) => stage.world.step(Event::Crash {
            peer,
            during: Some(call),
            kept: crash.0,
            actor: crash.1,
        }),
    }
}

// A peer reads its text at the heads that have the name, or crashes during that; `None` where none have it.
fn read_at(stage: &mut Stage, peer: usize, crash: Option<(u64, Actor)>, name: &str) -> Option<Reply>
    ensures next { MatchOption result (latest name.now None stage.old.marks.items ≡ None)
        (λ reply. NextIfEvent stage.old.world
        (option_map (λ hashes. event_with peer crash (events.Alone (ReadAt hashes)))
        (latest name.now None stage.old.marks.items))
        (event_reply_of reply) stage.new.world) }
    ensures marks { stage.new.marks ≡ stage.old.marks }
{
    let hashes = match heads_named(&stage.marks, name) {
        Some(hashes) => hashes,
        None => return None,
    };
    let call = Call::Alone(PeerCall::ReadAt { hashes });
    match crash {
        None => Some(stage.world.step(Event::Call { peer, call })),
        Some(crash) => Some(
            stage.world.step(Event::Crash {
                peer,
                during: Some(call),
                kept: crash.0,
                actor: crash.1,
            }),
        ),
    }
}

// A peer makes the call that is asked for, or crashes during it. `None` where it names a mark that isn't set.
fn make_call(
    stage: &mut Stage,
    peer: usize,
    crash: Option<(u64, Actor)>,
    call: &AskedCall,
) -> Option<Reply>
    ensures next { MatchOption result (call_with_marks stage.old.marks.items call.now ≡ None)
        (λ reply. NextIfEvent stage.old.world
        (option_map (λ c. event_with peer crash c) (call_with_marks stage.old.marks.items call.now))
        (event_reply_of reply) stage.new.world) }
    ensures marks { stage.new.marks ≡ stage.old.marks }
{
    match call {
        AskedCall::Edit(splice) => Some(step(
            stage,
            peer,
            crash,
            Call::Alone(PeerCall::Edit {
                splices: &[*splice],
                time: 0,
                message: "",
            }),
        )),
        AskedCall::Merge(from) => Some(step(stage, peer, crash, Call::Merge { from: *from })),
        AskedCall::Send(to) => Some(step(
            stage,
            peer,
            crash,
            Call::Alone(PeerCall::Generate {
                link: Link(*to as u64),
            }),
        )),
        AskedCall::Deliver(entry) => {
            Some(step(stage, peer, crash, Call::Deliver { entry: *entry }))
        }
        AskedCall::Bytes(from, bytes) => Some(step(
            stage,
            peer,
            crash,
            Call::Alone(PeerCall::Receive {
                link: Link(*from as u64),
                bytes: bytes.as_slice(),
            }),
        )),
        AskedCall::Read => Some(step(stage, peer, crash, Call::Alone(PeerCall::Read))),
        AskedCall::ReadAt(name) => read_at(stage, peer, crash, name),
    }
}

// Names the heads of a peer, if its text can be read.
fn mark(stage: &mut Stage, name: &str, peer: usize) -> Result<Reply, AllocError>
    ensures next { IfOk result (λ reply. Next stage.old.world
        (event_with peer None (events.Alone Read)) (event_reply_of reply) stage.new.world) }
    ensures marks { IfOk result (λ reply. stage.new.marks.items
        ≡ marks_named stage.old.marks.items name.now (event_reply_of reply) stage.new.world) }
{
    let reply = step(stage, peer, None, Call::Alone(PeerCall::Read));
    if is_text(&reply) {
        stage.add_mark(name)?;
    }
    Ok(reply)
}

/// Carries out what a line asks for. `None` where it names a mark that isn't set; then nothing happens.
pub(crate) fn carry_out(stage: &mut Stage, asked: &Asked) -> Result<Option<Reply>, AllocError>
    ensures unknown { IfOk result (λ reported. MatchOption reported
        (event_in stage.old.marks.items asked.now ≡ None) (λ _. Unit {0})) }
    ensures carried { IfOk result (λ reported. IfSome reported (λ reply.
        Carries stage.old.world stage.old.marks.items asked.now (event_reply_of reply)
        stage.new.world stage.new.marks.items)) }
{
    match asked {
        Asked::Start { actor } => Ok(Some(stage.world.step(Event::Start { actor: *actor }))),
        Asked::Fork { of, actor } => Ok(Some(
            stage.world.step(Event::Fork {
                of: *of,
                actor: *actor,
            }),
        )),
        Asked::Call { peer, call, crash } => Ok(make_call(stage, *peer, *crash, call)),
        Asked::Crash { peer, actor } => Ok(Some(
            stage.world.step(Event::Crash {
                peer: *peer,
                during: None,
                kept: 0,
                actor: *actor,
            }),
        )),
        Asked::Fail { peer, kept } => Ok(Some(
            stage.world.step(Event::Fail {
                peer: *peer,
                kept: *kept,
            }),
        )),
        Asked::Mark { name, peer } => Ok(Some(mark(stage, name, *peer)?)),
    }
}

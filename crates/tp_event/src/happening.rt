//! What each event does to a world.

ghost use Rattle.std.specs.Prelude.{◌≡◌, ℕ, length, ◌<◌, ◌++◌, ◌&&◌, false, vec_len, vec_capacity, None, Some, IfOk};
ghost use Rattle.std.specs.List.{slice_get};
ghost use Rattle.tp_list.specs.Members.{In};
ghost use Rattle.tp_headline.specs.WorldInvariant.{WorldInvariant};
ghost use Rattle.tp_headline.specs.Event as events;
ghost use Rattle.tp_headline.specs.Refusing.{MayHappen};
ghost use Rattle.tp_headline.specs.World.{beginning};
ghost use Rattle.tp_peer.specs.PeerState.{PeerState};
ghost use Rattle.tp_event.specs.Meeting.{EventStep};
ghost use Rattle.tp_event.specs.Made.{MayBeMade};
ghost use Rattle.tp_event.specs.Making.{AnswersAt, IsWould, JoinsAs, NotesAnswer, entered_of, heads_named, is_kept_in, is_made};
ghost use Rattle.tp_event.specs.States.{world_of};
ghost use Rattle.tp_event.specs.Views.{answer_of, event_call_of, during_of, event_of, event_reply_of};

use crate::entry::Entry;
use crate::event::{Call, Event};
use crate::made::Made;
use crate::member::{Member, record_len};
use crate::members::{
    arm_at, call_at, disarm_at, fork_at, heads_at, journal_len_at, merge_at, receive_at, reopen_at,
};
use crate::read_record::ReadRecord;
use crate::reply::{Answer, Reply};
use crate::state::State;
use std::alloc::{AllocError, Global};
use tp_call::{Call as PeerCall, Reply as PeerReply};
use tp_change::Change;
use tp_headline::WorldError;
use tp_opid::{Actor, DocId, Hash};
use tp_peer::{Outgoing, PeerError};

// Puts the change after those that were made, if it was; else its hash isn't noted any more. There is room for it, and
// its hash is noted.
fn add_if(made: &mut Made, change: Option<Change>, entered: bool)
    requires { MayBeMade made.old change }
    ensures { made.new.items ≡ made.old.items ++ entered_of change entered }
{
    if entered {
        if let Some(change) = change {
            made.push_reserved(change);
        }
    } else {
        made.forget(&change);
    }
}

// Whether the whole record of the change is kept.
fn is_kept(change: &Option<Change>, kept: u64) -> bool
    ensures { result ≡ is_kept_in change.now kept }
{
    match change {
        Some(change) => record_len(change) as u64 <= kept,
        None => false,
    }
}

// Whether an edit made a change whose whole record is kept.
fn is_made_whole(answer: &Answer, change: &Option<Change>, kept: u64) -> bool
    ensures { result ≡ (is_made (answer_of answer.now) && is_kept_in change.now kept) }
{
    answer.is_made() && is_kept(change, kept)
}

// A copy of the heads at which a text of the peer is read.
fn heads_for(
    alloc: Global,
    members: &[Member],
    n: usize,
    call: &Call,
) -> Result<Vec<Hash>, AllocError>
    requires { (p : PeerState) × (slice_get members.now n ≡ Some p) × (p.stopped ≡ false) }
    ensures { IfOk result (λ v. (p : PeerState) → slice_get members.now n ≡ Some p
        → v.items ≡ heads_named p (event_call_of call.now)) }
{
    match call {
        Call::Alone(PeerCall::ReadAt { hashes }) => Vec::from_slice(alloc, hashes),
        _ => heads_at(alloc, members, n),
    }
}

impl State {
    /// A world in which nothing happened yet. No memory.
    pub fn new(alloc: Global, id: DocId) -> State
        ensures { world_of result ≡ beginning id }
    {
        State {
            alloc,
            id,
            peers: Vec::new(alloc),
            wire: Vec::new(alloc),
            made: Made::new(alloc),
            used: Vec::new(alloc),
            reads: Vec::new(alloc),
        }
    }

    // A peer joins, if it could be opened. There is room for it, and for its actor.
    fn join(&mut self, joined: Result<Member, PeerError>, actor: Actor) -> Reply
        requires peer { vec_len self.old.peers < vec_capacity self.old.peers }
        requires actor { vec_len self.old.used < vec_capacity self.old.used }
        ensures { JoinsAs (world_of self.old) actor joined (event_reply_of result) (world_of self.new) }
    {
        self.used.push_reserved(actor);
        let n = self.peers.len();
        match joined {
            Ok(member) => {
                self.peers.push_reserved(member);
                Reply::Peer(n)
            }
            Err(error) => Reply::open_refusal(error),
        }
    }

    // A peer with an empty document joins.
    fn start(&mut self, actor: Actor) -> Reply
        ensures { EventStep (world_of self.old) (events.Start actor) (event_reply_of result)
            (world_of self.new) }
    {
        if self.peers.reserve(1).is_err() {
            return Reply::Refused(WorldError::OutOfMemory);
        }
        if self.used.reserve(1).is_err() {
            return Reply::Refused(WorldError::OutOfMemory);
        }
        let begun = Member::begin(self.alloc, self.id, actor);
        self.join(begun, actor)
    }

    // A peer with a copy of another one's document joins.
    fn fork(&mut self, of: usize, actor: Actor) -> Reply
        requires { MayHappen (world_of self.old) (events.Fork of actor) }
        ensures { EventStep (world_of self.old) (events.Fork of actor) (event_reply_of result)
            (world_of self.new) }
    {
        if self.peers.reserve(1).is_err() {
            return Reply::Refused(WorldError::OutOfMemory);
        }
        if self.used.reserve(1).is_err() {
            return Reply::Refused(WorldError::OutOfMemory);
        }
        let forked = fork_at(self.alloc, &self.peers, of, actor);
        self.join(forked, actor)
    }

    // The peer makes the call. Nothing else changes.
    fn answer(&mut self, n: usize, call: Call) -> Answer
        requires peers { (m : ℕ) → In m (events.peers_of (events.Call n (event_call_of call)))
            → m < length self.old.peers.items }
        requires entries { (k : ℕ) → In k (events.wire_entries_of (events.Call n (event_call_of call)))
            → k < length self.old.wire.items }
        ensures answers { AnswersAt (world_of self.old) n (event_call_of call.entry) (answer_of result)
            (world_of self.new) }
        ensures made { self.new.made ≡ self.old.made }
        ensures rest { (self.new.wire ≡ self.old.wire) × (self.new.reads ≡ self.old.reads)
            × (self.new.used ≡ self.old.used) }
    {
        match call {
            Call::Alone(call) => Answer::Alone(call_at(&mut self.peers, n, call)),
            Call::Merge { from } => {
                Answer::of_merge(merge_at(self.alloc, &mut self.peers, n, from))
            }
            Call::Deliver { entry } => {
                let sent = &self.wire[entry];
                Answer::Alone(receive_at(&mut self.peers, n, sent))
            }
        }
    }

    // Puts a message that was made on the wire, and records a text that was read at the heads. There is room. The copy of
    // the text that is kept may be refused memory.
    fn note(&mut self, n: usize, heads: Vec<Hash>, answer: Answer) -> Reply
        requires wire { vec_len self.old.wire < vec_capacity self.old.wire }
        requires reads { vec_len self.old.reads < vec_capacity self.old.reads }
        ensures { NotesAnswer (world_of self.old) n heads.items (answer_of answer) (event_reply_of result)
            (world_of self.new) }
    {
        match answer {
            Answer::Alone(PeerReply::Generated(Some(message))) => {
                let place = self.wire.len();
                let Outgoing { bytes, .. } = message;
                self.wire.push_reserved(Entry::new(n, bytes));
                Reply::Wire(place)
            }
            Answer::Alone(PeerReply::Text(text)) => {
                match String::from_str(self.alloc, text.as_str()) {
                    Ok(copy) => {
                        self.reads.push_reserved(ReadRecord::new(n, heads, copy));
                        Reply::Answered(Answer::Alone(PeerReply::Text(text)))
                    }
                    Err(_) => Reply::Refused(WorldError::OutOfMemory),
                }
            }
            answer => Reply::Answered(answer),
        }
    }

    // A peer makes a call. The change is the one that it would make: it counts as made where its whole record is in the
    // journal then, also where the device failed.
    fn call(&mut self, n: usize, call: Call, change: Option<Change>) -> Reply
        requires carried { WorldInvariant (world_of self.old) }
        requires may { MayHappen (world_of self.old) (events.Call n (event_call_of call)) }
        requires change { IsWould (world_of self.old) (events.Call n (event_call_of call)) change }
        ensures { EventStep (world_of self.old) (events.Call n (event_call_of call.entry)) (event_reply_of result)
            (world_of self.new) }
    {
        if self.wire.reserve(1).is_err() {
            return Reply::Refused(WorldError::OutOfMemory);
        }
        if self.reads.reserve(1).is_err() {
            return Reply::Refused(WorldError::OutOfMemory);
        }
        let heads = match heads_for(self.alloc, &self.peers, n, &call) {
            Ok(heads) => heads,
            Err(_) => return Reply::Refused(WorldError::OutOfMemory),
        };
        if self.made.prepare(&change).is_err() {
            return Reply::Refused(WorldError::OutOfMemory);
        }
        let before = journal_len_at(&self.peers, n);
        let answer = self.answer(n, call);
        let grown = journal_len_at(&self.peers, n).saturating_sub(before);
        let whole = is_kept(&change, grown);
        add_if(&mut self.made, change, whole);
        self.note(n, heads, answer)
    }

    // A peer crashes between calls: its journal keeps all.
    fn crash_between(&mut self, n: usize, kept: u64, actor: Actor) -> Reply
        requires carried { WorldInvariant (world_of self.old) }
        requires may { MayHappen (world_of self.old) (events.Crash n None kept actor) }
        ensures { EventStep (world_of self.old) (events.Crash n None kept actor) (event_reply_of result)
            (world_of self.new) }
    {
        if self.used.reserve(1).is_err() {
            return Reply::Refused(WorldError::OutOfMemory);
        }
        let opened = reopen_at(self.alloc, &mut self.peers, n, usize::MAX, actor);
        self.used.push_reserved(actor);
        opened
    }

    // A peer crashes during a call. The change is the one that it would make: it counts as made where its record is
    // whole, though no reply came.
    fn crash_during(
        &mut self,
        n: usize,
        call: Call,
        kept: u64,
        actor: Actor,
        change: Option<Change>,
    ) -> Reply
        requires carried { WorldInvariant (world_of self.old) }
        requires may { MayHappen (world_of self.old)
            (events.Crash n (Some (event_call_of call)) kept actor) }
        requires change { IsWould (world_of self.old)
            (events.Crash n (Some (event_call_of call)) kept actor) change }
        ensures { EventStep (world_of self.old)
            (events.Crash n (Some (event_call_of call.entry)) kept actor)
            (event_reply_of result) (world_of self.new) }
    {
        if self.used.reserve(1).is_err() {
            return Reply::Refused(WorldError::OutOfMemory);
        }
        if self.made.prepare(&change).is_err() {
            return Reply::Refused(WorldError::OutOfMemory);
        }
        disarm_at(&mut self.peers, n);
        let len = journal_len_at(&self.peers, n).saturating_add(kept);
        let answer = self.answer(n, call);
        let whole = is_made_whole(&answer, &change, kept);
        add_if(&mut self.made, change, whole);
        let opened = reopen_at(self.alloc, &mut self.peers, n, len as usize, actor);
        self.used.push_reserved(actor);
        opened
    }

    // A peer crashes, and is opened again.
    fn crash(
        &mut self,
        n: usize,
        during: Option<Call>,
        kept: u64,
        actor: Actor,
        change: Option<Change>,
    ) -> Reply
        requires carried { WorldInvariant (world_of self.old) }
        requires may { MayHappen (world_of self.old)
            (events.Crash n (during_of during) kept actor) }
        requires change { IsWould (world_of self.old)
            (events.Crash n (during_of during) kept actor) change }
        ensures { EventStep (world_of self.old) (events.Crash n (during_of during.entry) kept actor)
            (event_reply_of result) (world_of self.new) }
    {
        match during {
            None => self.crash_between(n, kept, actor),
            Some(call) => self.crash_during(n, call, kept, actor, change),
        }
    }

    // The device of a peer's journal is to fail.
    fn fail(&mut self, n: usize, kept: u64) -> Reply
        requires { MayHappen (world_of self.old) (events.Fail n kept) }
        ensures { EventStep (world_of self.old) (events.Fail n kept) (event_reply_of result)
            (world_of self.new) }
    {
        arm_at(&mut self.peers, n, kept);
        Reply::Armed
    }

    /// The event, which may happen, happens, or is refused as `OutOfMemory`, where a growth of the world's own was refused,
    /// and changes nothing. The change is that of the edit that it is, or during which a peer crashes in it.
    ///
    /// It costs what its call on the peer costs, and a look-up of the change's hash. A crash opens the journal again.
    pub fn happen(&mut self, event: &Event, change: Option<Change>) -> Reply
        requires carried { WorldInvariant (world_of self.old) }
        requires may { MayHappen (world_of self.old) (event_of event.now) }
        requires change { IsWould (world_of self.old) (event_of event.now) change }
        ensures { EventStep (world_of self.old) (event_of event.now) (event_reply_of result)
            (world_of self.new) }
    {
        match event {
            Event::Start { actor } => self.start(*actor),
            Event::Fork { of, actor } => self.fork(*of, *actor),
            Event::Call { peer, call } => self.call(*peer, *call, change),
            Event::Crash {
                peer,
                during,
                kept,
                actor,
            } => self.crash(*peer, *during, *kept, *actor, change),
            Event::Fail { peer, kept } => self.fail(*peer, *kept),
        }
    }
}

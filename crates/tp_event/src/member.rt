//! A peer of a world.

ghost use Rattle.std.specs.Prelude.{◌≡◌, ◌<◌, ◌^◌, [], length, take, true, false, None, IfOk, IfErr, IsOkUnless};
ghost use Rattle.std.specs.Str.{chars};
ghost use Rattle.tp_history.specs.Heads.{heads};
ghost use Rattle.tp_journal.specs.Journal.{no_device};
ghost use Rattle.tp_recovery.specs.Layout.{header_of, record_of};
ghost use Rattle.tp_call.specs.Calls.{call_of, reply_of};
ghost use Rattle.tp_peer.specs.Opening.{Forks, RefusesNewJournal, RefusesFork};
ghost use Rattle.tp_peer.specs.PeerState.{arming, disarming, opened_peer};
ghost use Rattle.tp_peer.specs.PeerStep.{Edit, Merge, Merged, PeerStep, reply_of_result};
ghost use Rattle.tp_peer.specs.Taking.{report_of};
ghost use Rattle.tp_headline.specs.Calling.{in_memory};
ghost use Rattle.tp_headline.specs.declared.error.WorldError.TheVariants.{OutOfMemory};
ghost use Rattle.tp_event.specs.Making.{IsJustEdit};
ghost use Rattle.tp_event.specs.Members.{OpensOn, left_with};
ghost use Rattle.tp_event.specs.Views.{event_reply_of as reported};

use crate::reply::Reply;
use std::alloc::{AllocError, Global};
use std::marker::Model;
use tp_call::{Call as PeerCall, Reply as PeerReply};
use tp_change::Change;
use tp_document::{Applied, DocError};
use tp_edit::Splice;
use tp_headline::WorldError;
use tp_journal::{DIGEST_BYTES, FuseJournal, MemJournal};
use tp_opid::{Actor, DocId, Hash};
use tp_peer::{Peer, PeerError};

/// What has become of a peer.
#[derive(Drop)]
pub(crate) enum Life {
    /// It runs.
    Running(Peer<FuseJournal>),
    /// It crashed and wasn't opened again: its document's identifier, its actor, and its journal are left.
    Stopped(DocId, Actor, FuseJournal),
}

/// A peer of a world, that runs or has stopped.
///
/// Contracts see `PeerState`. The changes of one that has stopped are those that its journal recovers to.
#[derive(Drop)]
pub struct Member {
    life: Life,
}

impl Model for Member {
    ghost use Rattle.tp_peer.specs.PeerState.{PeerState};

    ghost Value = { PeerState };

    ghost use Rattle.tp_event.specs.Lives.{member_state};

    ghost view = { λ m. member_state m.life };
}

// A journal with the bytes, whose device isn't to fail.
fn journal_with(bytes: Vec<u8>) -> FuseJournal
    ensures content { result.content ≡ bytes.items }
    ensures failures { result.failures ≡ 0 }
    ensures append { result.append ≡ None }
    ensures cut { result.cut ≡ false }
{
    FuseJournal::new(MemJournal::new(bytes))
}

// The change that an edit of the peer would make, if any.
fn edit_change_of(
    peer: &Peer<FuseJournal>,
    splices: &[Splice],
    time: u64,
    message: &str,
) -> Result<Option<Change>, WorldError>
    ensures ok { IfOk result
        (λ made. IsJustEdit peer.now (Edit splices.now time (chars message.now)) made) }
    ensures err { IsOkUnless result OutOfMemory }
{
    if peer.is_stopped() {
        return Ok(None);
    }
    match peer
        .document()
        .make_edit(peer.actor(), splices, time, message)
    {
        Ok(made) => Ok(made),
        Err(error) => match error {
            DocError::OutOfMemory => Err(WorldError::OutOfMemory),
            _ => Ok(None),
        },
    }
}

// A peer with no changes, of the same document.
fn empty_like(alloc: Global, peer: &Peer<FuseJournal>) -> Result<Peer<MemJournal>, PeerError>
    ensures ok { IfOk result (λ p. p ≡ opened_peer peer.now.id peer.now.actor [] no_device) }
    ensures err { IsOkUnless result PeerError.OutOfMemory }
{
    let id = peer.document().id();
    match Peer::create(alloc, MemJournal::new(Vec::new(alloc)), id, peer.actor()) {
        Ok(empty) => Ok(empty),
        Err(_) => Err(PeerError::OutOfMemory),
    }
}

// The peer takes what one with no changes has, which is what a merge from itself comes to: just what waits is tried
// again.
fn merge_nothing(alloc: Global, peer: &mut Peer<FuseJournal>) -> Result<Applied, PeerError>
    ensures { PeerStep peer.old (Merge peer.old)
        (reply_of_result (λ a. Merged (report_of a)) result) peer.new }
{
    if peer.is_stopped() {
        return Err(PeerError::Stopped);
    }
    match empty_like(alloc, peer) {
        Ok(empty) => peer.merge(&empty),
        Err(error) => Err(error),
    }
}

// A peer opened again on the bytes under the actor, or what is left of it.
fn open_again(alloc: Global, id: DocId, old: Actor, bytes: Vec<u8>, actor: Actor) -> (Member, Reply)
    ensures { OpensOn id old bytes.items actor (reported result.1) result.0 }
{
    match Peer::reopen(alloc, journal_with(bytes), actor) {
        Ok(peer) => (Member::running(peer), Reply::Reopened),
        Err(unopened) => (
            Member::of_journal(id, old, unopened.journal),
            Reply::open_refusal(unopened.error),
        ),
    }
}

/// How many bytes the record of a change has.
pub fn record_len(change: &Change) -> usize
    ensures { result ≡ length (record_of change.now) }
{
    let _hash = change.hash();
    change.encoded_len() + 4 + DIGEST_BYTES
}

// The peer takes what another one of the world has.
fn merge_member(peer: &mut Peer<FuseJournal>, other: &Member) -> Result<Applied, PeerError>
    ensures { PeerStep peer.old (Merge other.now)
        (reply_of_result (λ a. Merged (report_of a)) result) peer.new }
{
    match &other.life {
        Life::Running(other) => peer.merge(other),
        Life::Stopped(_, _, _) => Err(PeerError::Stopped),
    }
}

impl Member {
    // One that runs.
    fn running(peer: Peer<FuseJournal>) -> Member
        ensures { result ≡ peer }
    {
        Member {
            life: Life::Running(peer),
        }
    }

    // One that has only its journal left.
    fn of_journal(id: DocId, actor: Actor, journal: FuseJournal) -> Member
        ensures { result ≡ left_with id actor journal.content }
    {
        Member {
            life: Life::Stopped(id, actor, journal),
        }
    }

    /// A peer with an empty document joins.
    pub(crate) fn begin(alloc: Global, id: DocId, actor: Actor) -> Result<Member, PeerError>
        ensures ok { IfOk result (λ m. m ≡ opened_peer id actor [] no_device) }
        ensures err { IfErr result (λ e. RefusesNewJournal (header_of id) (in_memory []) e (in_memory [])) }
    {
        match Peer::create(alloc, journal_with(Vec::new(alloc)), id, actor) {
            Ok(peer) => Ok(Member::running(peer)),
            Err(unopened) => Err(unopened.error),
        }
    }

    /// What takes the place of a peer that is taken out. No memory.
    pub(crate) fn nobody(alloc: Global) -> Member {
        Member::of_journal(
            DocId([0; 16]),
            Actor([0; 16]),
            journal_with(Vec::new(alloc)),
        )
    }

    /// Whether it has stopped.
    #[inline]
    pub fn is_stopped(&self) -> bool
        ensures { result ≡ self.now.stopped }
    {
        match &self.life {
            Life::Running(peer) => peer.is_stopped(),
            Life::Stopped(_, _, _) => true,
        }
    }

    /// A peer with a copy of its document.
    pub(crate) fn fork(&self, alloc: Global, actor: Actor) -> Result<Member, PeerError>
        ensures ok { IfOk result (λ m. Forks self.now actor (in_memory []) m) }
        ensures err { IfErr result (λ e. RefusesFork self.now actor (in_memory []) e (in_memory [])) }
    {
        match &self.life {
            Life::Running(peer) => match peer.fork(journal_with(Vec::new(alloc)), actor) {
                Ok(peer) => Ok(Member::running(peer)),
                Err(unopened) => Err(unopened.error),
            },
            Life::Stopped(_, _, _) => Err(PeerError::Stopped),
        }
    }

    /// It makes the call.
    pub(crate) fn call(&mut self, call: PeerCall) -> PeerReply
        ensures { PeerStep self.old (call_of call.entry) (reply_of result) self.new }
    {
        match &mut self.life {
            Life::Running(peer) => call.make_on(peer),
            Life::Stopped(_, _, _) => PeerReply::Refused(PeerError::Stopped),
        }
    }

    /// It takes what another one has.
    pub(crate) fn merge(&mut self, other: &Member) -> Result<Applied, PeerError>
        ensures { PeerStep self.old (Merge other.now)
            (reply_of_result (λ a. Merged (report_of a)) result) self.new }
    {
        match &mut self.life {
            Life::Running(peer) => merge_member(peer, other),
            Life::Stopped(_, _, _) => Err(PeerError::Stopped),
        }
    }

    /// It takes what it has itself: what waits is tried again.
    pub(crate) fn merge_itself(&mut self, alloc: Global) -> Result<Applied, PeerError>
        ensures { PeerStep self.old (Merge self.old)
            (reply_of_result (λ a. Merged (report_of a)) result) self.new }
    {
        match &mut self.life {
            Life::Running(peer) => merge_nothing(alloc, peer),
            Life::Stopped(_, _, _) => Err(PeerError::Stopped),
        }
    }

    /// A copy of its heads.
    pub(crate) fn heads(&self, alloc: Global) -> Result<Vec<Hash>, AllocError>
        requires { self.now.stopped ≡ false }
        ensures { IfOk result (λ v. v.items ≡ heads self.now.applied) }
    {
        match &self.life {
            Life::Running(peer) => Vec::from_slice(alloc, peer.document().heads()),
            Life::Stopped(_, _, _) => unreachable!(),
        }
    }

    /// The change that the call would make; `None` where it would make none. The only refusal is `OutOfMemory`.
    pub fn edit_change(&self, call: &PeerCall) -> Result<Option<Change>, WorldError>
        ensures ok { IfOk result (λ made. IsJustEdit self.now (call_of call.now) made) }
        ensures err { IsOkUnless result OutOfMemory }
    {
        match call {
            PeerCall::Edit {
                splices,
                time,
                message,
            } => match &self.life {
                Life::Running(peer) => edit_change_of(peer, splices, *time, message),
                Life::Stopped(_, _, _) => Ok(None),
            },
            _ => Ok(None),
        }
    }

    /// How many bytes its journal has.
    pub(crate) fn journal_len(&self) -> u64
        ensures { result ≡ length self.now.journal }
    {
        match &self.life {
            Life::Running(peer) => peer.journal_len(),
            Life::Stopped(_, _, journal) => journal.len(),
        }
    }

    /// The device of its journal is to fail in the next append, and to keep `kept` bytes.
    pub(crate) fn arm(&mut self, kept: u64)
        requires { self.old.stopped ≡ false }
        ensures { self.new ≡ arming self.old kept }
    {
        match &mut self.life {
            Life::Running(peer) => peer.arm(kept),
            Life::Stopped(_, _, _) => unreachable!(),
        }
    }

    /// The device of its journal isn't to fail.
    pub(crate) fn disarm(&mut self)
        ensures { self.new ≡ disarming self.old }
    {
        match &mut self.life {
            Life::Running(peer) => peer.disarm(),
            Life::Stopped(_, _, _) => {}
        }
    }

    // What is left of it: its document's identifier, its actor, its journal.
    fn into_remains(self) -> (DocId, Actor, FuseJournal)
        ensures id { result.0 ≡ self.id }
        ensures actor { result.1 ≡ self.actor }
        ensures journal { result.2.content ≡ self.journal }
    {
        match self.life {
            Life::Running(peer) => {
                let id = peer.document().id();
                let actor = peer.actor();
                (id, actor, peer.stop())
            }
            Life::Stopped(id, actor, journal) => (id, actor, journal),
        }
    }

    /// It crashes: its journal keeps `keep` bytes at most, and is opened again under the actor. Where that is refused it
    /// has stopped.
    pub(crate) fn reopen(self, alloc: Global, keep: usize, actor: Actor) -> (Member, Reply)
        ensures len { length self.journal < 2 ^ 64 }
        ensures opens { OpensOn self.id self.actor (take keep self.journal) actor (reported result.1)
            result.0 }
    {
        let (id, old, journal) = self.into_remains();
        let mut bytes = journal.into_vec();
        let _len = bytes.len();
        bytes.truncate(keep);
        open_again(alloc, id, old, bytes, actor)
    }
}

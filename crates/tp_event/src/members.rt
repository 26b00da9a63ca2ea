//! The peers of a world by their numbers.

ghost use Rattle.std.specs.Prelude.{◌≡◌, ◌<◌, length, slice_set, Some, false, IfOk};
ghost use Rattle.std.specs.List.{slice_get};
ghost use Rattle.tp_history.specs.Heads.{heads};
ghost use Rattle.tp_call.specs.Calls.{call_of, reply_of};
ghost use Rattle.tp_peer.specs.PeerState.{PeerState};
ghost use Rattle.tp_peer.specs.PeerStep.{Merged, Receive, reply_of_result};
ghost use Rattle.tp_peer.specs.Taking.{report_of};
ghost use Rattle.tp_event.specs.Members.{ArmsAt, DisarmsAt, ForksAt, MergesAt, OpensAgainAt, MemberSteps};
ghost use Rattle.tp_event.specs.Views.{event_reply_of as reported};

use crate::entry::Entry;
use crate::member::Member;
use crate::reply::Reply;
use std::alloc::{AllocError, Global};
use std::mem;
use tp_call::{Call as PeerCall, Reply as PeerReply};
use tp_document::Applied;
use tp_opid::{Actor, Hash};
use tp_peer::{Link, PeerError};

/// A peer forks.
pub(crate) fn fork_at(
    alloc: Global,
    members: &[Member],
    n: usize,
    actor: Actor,
) -> Result<Member, PeerError>
    requires { n < length members.now }
    ensures { ForksAt members.now n actor result }
{
    let member = &members[n];
    member.fork(alloc, actor)
}

/// A peer makes a call that needs no other one.
pub(crate) fn call_at(members: &mut Vec<Member>, n: usize, call: PeerCall) -> PeerReply
    requires { n < length members.old.items }
    ensures { MemberSteps members.old.items n (call_of call.entry) (reply_of result)
        members.new.items }
{
    let member = &mut members[n];
    member.call(call)
}

/// A peer receives the entry of the wire, on its link to the peer that sent it.
pub(crate) fn receive_at(members: &mut Vec<Member>, n: usize, sent: &Entry) -> PeerReply
    requires { n < length members.old.items }
    ensures { MemberSteps members.old.items n (Receive sent.now.sender sent.now.bytes)
        (reply_of result) members.new.items }
{
    call_at(
        members,
        n,
        PeerCall::Receive {
            link: Link(sent.sender() as u64),
            bytes: sent.bytes(),
        },
    )
}

// Takes the peer with the number out, and puts one in its place.
fn exchange(members: &mut Vec<Member>, n: usize, other: Member) -> Member
    requires { n < length members.old.items }
    ensures out { slice_get members.old.items n ≡ Some result }
    ensures left { members.new.items ≡ slice_set members.old.items n other }
{
    let member = &mut members[n];
    mem::replace(member, other)
}

// A peer takes what it has itself.
fn merge_itself_at(alloc: Global, members: &mut Vec<Member>, n: usize) -> Result<Applied, PeerError>
    requires { n < length members.old.items }
    ensures { MergesAt members.old.items n n (reply_of_result (λ a. Merged (report_of a)) result)
        members.new.items }
{
    let member = &mut members[n];
    member.merge_itself(alloc)
}

// A peer takes what another one has.
fn merge_other_at(
    alloc: Global,
    members: &mut Vec<Member>,
    into: usize,
    from: usize,
) -> Result<Applied, PeerError>
    requires into { into < length members.old.items }
    requires from { from < length members.old.items }
    requires apart { into ≡ from → ⊥ }
    ensures { MergesAt members.old.items into from (reply_of_result (λ a. Merged (report_of a)) result)
        members.new.items }
{
    let mut member = exchange(members, into, Member::nobody(alloc));
    let other = &members[from];
    let merged = member.merge(other);
    let _nobody = exchange(members, into, member);
    merged
}

/// A peer takes what another one has, or it itself.
pub(crate) fn merge_at(
    alloc: Global,
    members: &mut Vec<Member>,
    into: usize,
    from: usize,
) -> Result<Applied, PeerError>
    requires into { into < length members.old.items }
    requires from { from < length members.old.items }
    ensures { MergesAt members.old.items into from (reply_of_result (λ a. Merged (report_of a)) result)
        members.new.items }
{
    if into == from {
        merge_itself_at(alloc, members, into)
    } else {
        merge_other_at(alloc, members, into, from)
    }
}

/// A peer crashes: its journal keeps `keep` bytes at most, and is opened again under the actor.
pub(crate) fn reopen_at(
    alloc: Global,
    members: &mut Vec<Member>,
    n: usize,
    keep: usize,
    actor: Actor,
) -> Reply
    requires { n < length members.old.items }
    ensures { OpensAgainAt members.old.items n keep actor (reported result) members.new.items }
{
    let member = exchange(members, n, Member::nobody(alloc));
    let (member, opened) = member.reopen(alloc, keep, actor);
    let _nobody = exchange(members, n, member);
    opened
}

/// A copy of the heads of a peer that runs.
pub(crate) fn heads_at(alloc: Global, members: &[Member], n: usize) -> Result<Vec<Hash>, AllocError>
    requires { (p : PeerState) × (slice_get members.now n ≡ Some p) × (p.stopped ≡ false) }
    ensures { IfOk result
        (λ v. (p : PeerState) → slice_get members.now n ≡ Some p → v.items ≡ heads p.applied) }
{
    let member = &members[n];
    member.heads(alloc)
}

/// How many bytes the journal of a peer has.
pub(crate) fn journal_len_at(members: &[Member], n: usize) -> u64
    requires { n < length members.now }
    ensures { (p : PeerState) → slice_get members.now n ≡ Some p → result ≡ length p.journal }
{
    let member = &members[n];
    member.journal_len()
}

/// The device of a peer that runs is to fail in the next append, and to keep `kept` bytes.
pub(crate) fn arm_at(members: &mut Vec<Member>, n: usize, kept: u64)
    requires { (p : PeerState) × (slice_get members.old.items n ≡ Some p) × (p.stopped ≡ false) }
    ensures { ArmsAt members.old.items n kept members.new.items }
{
    let member = &mut members[n];
    member.arm(kept);
}

/// The device of a peer isn't to fail.
pub(crate) fn disarm_at(members: &mut Vec<Member>, n: usize)
    requires { n < length members.old.items }
    ensures { DisarmsAt members.old.items n members.new.items }
{
    let member = &mut members[n];
    member.disarm();
}

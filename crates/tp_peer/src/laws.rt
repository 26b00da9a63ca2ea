//! Laws of peers: public functions whose contract is the law and whose body is empty.

ghost use Rattle.std.specs.Prelude.{◌≡◌, ℕ, List, ◌++◌, false, length, IsTrue};
ghost use Rattle.tp_list.specs.Members.{In};
ghost use Rattle.tp_peer.specs.Common.{ChangeParts, Splice, Recovers, Done, Report, Stopped};
ghost use Rattle.tp_history.specs.Named.{HashesApart};
ghost use Rattle.tp_journal.specs.Journal.{no_device};
ghost use Rattle.tp_history.specs.Sound.{Sound};
ghost use Rattle.tp_peer.specs.declared.error.PeerError.{PeerError as Refusal};
ghost use Rattle.tp_peer.specs.declared.error.PeerError.TheVariants.{JournalFailed, OutOfMemory};
ghost use Rattle.tp_peer.specs.PeerState.{PeerState, IsPeer};
ghost use Rattle.tp_peer.specs.PeerStep.{Call, Edit, PeerStep, Refused, Reply};
ghost use Rattle.tp_receive.specs.declared.error.ReceiveError.TheVariants as receive;
ghost use Rattle.tp_peer.specs.Taking.{ReceivesAndAppends};
ghost use Rattle.tp_peer.specs.Laws.{DeviceFails, Keeps, IsComplete, IsPartial, IsTornAt, RecoversTorn};

use crate::peer::Peer;
use tp_journal::MemJournal;

/// A step keeps the identifier and the actor. The list of applied changes grows at its end, by one at most for an edit,
/// by what waited and 1,024 more at most for a message that came, and by none for all but these two and a merge; and
/// the journal grows by just their records. What waits waited before or came, and where at most 1,024 waited at most
/// 1,024 wait. Each link stays but the one that the call is on. The device failed exactly where `JournalFailed` is
/// answered: the peer has stopped then.
pub fn a_step_keeps()
    ensures { (p : PeerState) (call : Call) (reply : Reply) (p' : PeerState)
        → PeerStep p call reply p' → Keeps p call reply p' }
{}

/// What every peer keeps is kept by each step: its changes are a history, and its journal is theirs, with a beginning
/// of one record after it where the peer has stopped; at most 1,024 changes wait, and there are at most 1,024 links.
pub fn a_step_leaves_a_peer()
    ensures { (p : PeerState) (call : Call) (reply : Reply) (p' : PeerState)
        → IsPeer p → PeerStep p call reply p' → IsPeer p' }
{}

/// A refused call changes nothing, but for want of memory and for a device that failed.
pub fn a_refusal_changes_nothing()
    ensures { (p : PeerState) (call : Call) (e : Refusal) (p' : PeerState)
        → PeerStep p call (Refused e) p'
        → (e ≡ OutOfMemory → ⊥) → (e ≡ JournalFailed → ⊥) → p' ≡ p }
{}

/// The change that an edit enters is the peer's actor's.
pub fn an_edit_bears_the_actor()
    ensures { (p : PeerState) (splices : List Splice) (time : ℕ) (message : List ℕ)
        (reply : Reply) (p' : PeerState) (new : List ChangeParts)
        → PeerStep p (Edit splices time message) reply p' → p'.applied ≡ p.applied ++ new
        → (c : ChangeParts) → In c new → c.actor ≡ p.actor }
{}

/// Where no two different changes of what waited and came have one hash, what received all of them is a result.
pub fn all_is_complete()
    ensures { (p : PeerState) (K : List ChangeParts) (r : Report) (p' : PeerState) → Sound p.applied
        → HashesApart (p.waiting ++ K) → ReceivesAndAppends p K (Done r) p' → IsComplete p K r p' }
{}

/// Where memory was refused, what is applied is between what was there and a result.
pub fn a_part_is_between()
    ensures { (p : PeerState) (K : List ChangeParts) (p' : PeerState) → Sound p.applied
        → ReceivesAndAppends p K (Stopped receive.OutOfMemory) p' → IsPartial p K p' }
{}

/// Where the device failed, what is applied, with the change that was being appended, is between what was there and a
/// result, and the journal has a beginning of just that change's record after those of what is applied.
pub fn a_stop_is_between()
    ensures { (p : PeerState) (K : List ChangeParts) (p' : PeerState) → Sound p.applied
        → ReceivesAndAppends p K (Stopped receive.NotKept) p' → IsTornAt p K p' }
{}

/// A call answers `JournalFailed` only at a peer whose device can fail, or whose next append is armed to, and counts one
/// failure more.
pub fn a_device_fails_where_it_can()
    ensures { (p : PeerState) (call : Call) (p' : PeerState)
        → PeerStep p call (Refused JournalFailed) p' → DeviceFails p.device p'.device }
{}

/// The journal of a peer in memory has no device that could fail, so by [`a_device_fails_where_it_can`] no call on it
/// answers `JournalFailed`.
pub fn a_peer_in_memory_never_fails(peer: &Peer<MemJournal>)
    ensures { peer.now.device ≡ no_device }
{
    let _journal = &peer.appender.journal;
}

/// The journal of a running peer recovers to its changes, whole. That of one that has stopped has a beginning of one
/// change's record after them, and recovers to its changes, and to that one too where the beginning is the whole record.
pub fn a_peer_recovers()
    ensures running { (p : PeerState) → IsPeer p → p.stopped ≡ false
        → Recovers p.journal p.id p.applied (length p.journal) }
    ensures stopped { (p : PeerState) → IsPeer p → IsTrue p.stopped → RecoversTorn p }
{}

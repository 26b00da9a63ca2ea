//! What is known of another peer.

ghost use Rattle.std.specs.Prelude.{◌≡◌, ◌↔◌, [], Some, None, unwrap_or, if◌then◌else◌, IfOk, IsOkUnless, IsTrue, MatchOption};
ghost use Rattle.tp_sync.specs.State.{new_sync_state};
ghost use Rattle.tp_message.specs.declared.error.SyncError.TheVariants.{OutOfMemory};

use crate::due::are;
use std::alloc::{AllocError, Global};
use std::marker::Model;
use tp_list::Items;
use tp_message::SyncError;
use tp_opid::Hash;

/// What a peer knows of another one to which it sends changes, as Automerge's `sync::State`: the heads that the other
/// declared last, the hashes that it wanted and those of changes that it knew then, and what was declared to it.
///
/// Nothing that was sent counts as received: what is due to the other follows from what it declared and wants alone.
pub struct SyncState {
    pub(crate) theirs: Option<Items<Hash>>,
    pub(crate) wants: Items<Hash>,
    pub(crate) known: Items<Hash>,
    pub(crate) declared: Option<Items<Hash>>,
    pub(crate) next: usize,
    pub(crate) again: bool,
}

impl Drop for SyncState {
    fn drop(self) {
        let SyncState {
            theirs: _,
            wants: _,
            known: _,
            declared: _,
            next: _,
            again: _,
        } = self;
    }
}

impl Model for SyncState {
    ghost use Rattle.tp_sync.specs.State.{SyncParts};

    ghost Value = { SyncParts };

    ghost view = { λ s. record { theirs = s.theirs; wants = s.wants; known = s.known; declared = s.declared; next = s.next; again = s.again } };
}

// Equal hashes, if there are any.
fn copy_of(alloc: Global, hashes: &Option<Items<Hash>>) -> Result<Option<Items<Hash>>, AllocError>
    ensures { IfOk result (λ copy. copy ≡ hashes.now) }
{
    match hashes {
        Some(hashes) => {
            let copy = Vec::from_slice(alloc, hashes.as_slice())?;
            Ok(Some(Items::new(copy)))
        }
        None => Ok(None),
    }
}

impl SyncState {
    /// The state at first: nothing came from the other, and nothing was declared to it. No memory.
    pub fn new(alloc: Global) -> SyncState
        ensures { result ≡ new_sync_state }
    {
        SyncState {
            theirs: None,
            wants: Items::new(Vec::new(alloc)),
            known: Items::new(Vec::new(alloc)),
            declared: None,
            next: 0,
            again: false,
        }
    }

    /// Whether something was due when the last message was made, and the message took it from the first change again,
    /// since nothing that was due was after what the ones before had taken.
    pub fn again(&self) -> bool
        ensures { result ≡ self.now.again }
    {
        self.again
    }

    /// An equal state. The only refusal is `OutOfMemory`.
    pub fn copy(&self, alloc: Global) -> Result<SyncState, SyncError>
        ensures same { IfOk result (λ copy. copy ≡ self.now) }
        ensures err { IsOkUnless result OutOfMemory }
    {
        let theirs = copy_of(alloc, &self.theirs)?;
        let wants = Vec::from_slice(alloc, self.wants.as_slice())?;
        let known = Vec::from_slice(alloc, self.known.as_slice())?;
        let declared = copy_of(alloc, &self.declared)?;
        Ok(SyncState {
            theirs,
            wants: Items::new(wants),
            known: Items::new(known),
            declared,
            next: self.next,
            again: self.again,
        })
    }

    /// Whether the heads are those that the other declared last.
    pub fn is_declared(&self, heads: &[Hash]) -> bool
        ensures { IsTrue result ↔ (self.now.theirs ≡ Some heads.now) }
    {
        are(&self.theirs, heads)
    }

    /// The heads that the other declared last, rising; `None` where none was heard yet.
    pub fn theirs(&self) -> Option<&[Hash]>
        ensures { MatchOption result (self.now.theirs ≡ None)
            (λ heads. self.now.theirs ≡ Some heads.now) }
    {
        match &self.theirs {
            Some(heads) => Some(heads.as_slice()),
            None => None,
        }
    }

    /// The heads that the other declared last, or none where none was heard yet.
    pub(crate) fn declared_heads(&self) -> &[Hash]
        ensures { result.now ≡ unwrap_or self.now.theirs [] }
    {
        match &self.theirs {
            Some(heads) => heads.as_slice(),
            None => &[],
        }
    }

    /// Notes what a message tells the other: the heads, and how far its changes got.
    pub(crate) fn tell(&mut self, heads: Vec<Hash>, next: usize, again: bool)
        ensures { self.new ≡ record self.old { declared = Some heads.items; next = next; again = again } }
    {
        self.declared = Some(Items::new(heads));
        self.next = next;
        self.again = again;
    }

    /// Takes up the heads that the other declared, the hashes that it wants and those of changes that it knows. What
    /// was declared to it counts no longer where it sent changes: so the next message declares what they led to.
    pub(crate) fn hear(
        &mut self,
        heads: Vec<Hash>,
        wants: Vec<Hash>,
        known: Vec<Hash>,
        sent_changes: bool,
    )
        ensures { self.new ≡ record self.old {
          theirs = Some heads.items;
          wants = wants.items;
          known = known.items;
          declared = (if sent_changes then None else self.old.declared);
        } }
    {
        self.theirs = Some(Items::new(heads));
        self.wants = Items::new(wants);
        self.known = Items::new(known);
        if sent_changes {
            self.declared = None;
        }
    }
}

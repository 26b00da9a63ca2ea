//! The changes of a history, with what is kept of their ancestry.

ghost use Rattle.std.specs.Prelude.{◌≡◌, ◌<◌, ◌≤◌, [], ◌∷◌, ◌++◌, length, slice_index, Some, None, false, IfOk, IfSome, OnOk, OnErr};
ghost use Rattle.std.specs.List.{slice_get};
ghost use Rattle.tp_list.specs.Members.{In};
ghost use Rattle.tp_layout.specs.declared.parts.ChangeParts.{ChangeParts};
ghost use Rattle.tp_change.specs.ChangeHash.{hash_of};
ghost use Rattle.tp_change.specs.Elements as made;
ghost use Rattle.tp_ancestry.specs.VersionVectors.{IsVectorOf, IsKnown};
ghost use Rattle.tp_ancestry.specs.Pasts.{IsSpan};
ghost use Rattle.tp_history.specs.ByActor.{ArePlacesBy};
ghost use Rattle.tp_history.specs.Fit.{cause, most_changes};
ghost use Rattle.tp_history.specs.Heads as head;
ghost use Rattle.tp_history.specs.Named as named;
ghost use Rattle.tp_history.specs.Places.{place_from, ends_of};
ghost use Rattle.tp_history.specs.Sound.{Sound};

use crate::lists::{Lists, WIDE, later, narrow};
use crate::pasts;
use crate::vector::VersionVector;
use std::alloc::{AllocError, Global};
use std::marker::Model;
use tp_change::Change;
use tp_history::{ActorChanges, ByActor, Index, place_of};
use tp_opid::{Actor, Hash};

/// The changes of a history in the order in which they entered, with their ancestry.
///
/// Contracts see the list, and for which change there is room. Heads, places by hash and by actor, counters and the
/// version vectors of pasts are kept beside it. What a change is judged by isn't asked for here: what enters has to
/// fit.
#[derive(Drop)]
pub struct Ancestry {
    alloc: Global,
    lists: Lists,
    next: u64,
    index: Index,
    by_actor: ByActor,
    room: Option<Hash>,
}

impl Model for Ancestry {
    ghost use Rattle.tp_ancestry.specs.AncestryState.{AncestryState};

    ghost Value = { AncestryState };

    ghost use Rattle.tp_ancestry.specs.Kept.{AncestryInvariant};

    ghost view = { λ a. record { changes = a.lists.changes.items; room = a.room } };

    ghost invariant = { AncestryInvariant };
}

impl Ancestry {
    /// No changes. It takes no memory.
    pub fn new(alloc: Global) -> Ancestry
        ensures changes { result.changes ≡ [] }
        ensures room { result.room ≡ None }
    {
        Ancestry {
            alloc,
            lists: Lists::new(alloc),
            next: 1,
            index: Index::new(alloc),
            by_actor: ByActor::new(alloc),
            room: None,
        }
    }

    /// The same changes, copied, with what is kept beside them as it is. There is room for no change in the copy.
    pub fn copy(&self) -> Result<Ancestry, AllocError>
        ensures changes { IfOk result (λ a. a.changes ≡ self.now.changes) }
        ensures room { IfOk result (λ a. a.room ≡ None) }
    {
        Ok(Ancestry {
            alloc: self.alloc,
            lists: self.lists.copy(self.alloc)?,
            next: self.next,
            index: self.index.clone()?,
            by_actor: self.by_actor.clone()?,
            room: None,
        })
    }

    /// Where memory is taken from.
    pub fn alloc(&self) -> Global {
        self.alloc
    }

    /// The changes, in order.
    pub fn changes(&self) -> &[Change]
        ensures changes { result.now ≡ self.now.changes }
        ensures sound { Sound self.now.changes }
        ensures few { length self.now.changes ≤ most_changes }
    {
        self.lists.changes.as_slice()
    }

    /// How many there are.
    pub fn len(&self) -> usize
        ensures len { result ≡ length self.now.changes }
        ensures few { length self.now.changes ≤ most_changes }
    {
        self.lists.changes.len()
    }

    /// The change at the place.
    pub fn at(&self, place: usize) -> &Change
        requires { place < length self.now.changes }
        ensures { slice_get self.now.changes place ≡ Some result.now }
    {
        &self.lists.changes[place]
    }

    /// One more than the last counter of the change at the place. A look-up, where four bytes hold it.
    pub fn end_at(&self, place: usize) -> u64
        requires { place < length self.now.changes }
        ensures { result ≡ slice_index (ends_of self.now.changes) place }
    {
        let end = self.lists.ends[place];
        if end < WIDE {
            end as u64
        } else {
            self.lists.changes[place].next_start()
        }
    }

    /// Where the past of the dependencies of the change at the place is all that is before a place: that place.
    pub(crate) fn span_at(&self, place: usize) -> Option<usize>
        requires { place < length self.now.changes }
        ensures { IfSome result (λ prefix. (c : ChangeParts)
            → slice_get self.now.changes place ≡ Some c
            → IsSpan self.now.changes c.deps prefix) }
    {
        self.lists.pasts.span(place)
    }

    /// How far the past of the dependencies of any other change reaches, where that is known.
    pub(crate) fn vector_at(&self, place: usize) -> Option<&VersionVector>
        ensures { IfSome result (λ vector. (c : ChangeParts)
            → slice_get self.now.changes place ≡ Some c
            → IsVectorOf self.now.changes c.deps vector.now) }
    {
        pasts::find(self.lists.pasts.vectors.as_slice(), place)
    }

    /// Their heads, rising: the hashes on which none of them depends.
    pub fn heads(&self) -> &[Hash]
        ensures { result.now ≡ head.heads self.now.changes }
    {
        self.lists.heads.as_slice()
    }

    /// One more than the greatest counter, or 1.
    pub fn next_counter(&self) -> u64
        ensures { result ≡ made.next_counter self.now.changes }
    {
        self.next
    }

    /// The places of the actor's changes.
    pub fn changes_by(&self, actor: &Actor) -> ActorChanges<'_>
        ensures { ArePlacesBy self.now.changes actor.now result }
    {
        self.by_actor
            .changes_by(self.lists.changes.as_slice(), actor)
    }

    /// The actors of the changes. Some may come twice.
    pub(crate) fn actors(&self) -> Result<Vec<Actor>, AllocError>
        ensures { IfOk result (λ v. (c : ChangeParts) → In c self.now.changes → In c.actor v.items) }
    {
        self.by_actor
            .actors(self.alloc, self.lists.changes.as_slice())
    }

    /// The place of the change with the hash. A look-up.
    pub fn place(&self, hash: &Hash) -> Option<usize>
        ensures place { result ≡ place_from 0 self.now.changes hash.now }
        ensures within { IfSome result (λ place. place < length self.now.changes) }
    {
        place_of(self.lists.changes.as_slice(), &self.index, hash)
    }

    /// Makes every growth that the entry of a change with the hash takes: there is room for it then. Where a growth is
    /// refused, there is room for the change that there was room for before.
    pub fn reserve(&mut self, hash: &Hash) -> Result<(), AllocError>
        requires few { length self.old.changes < most_changes }
        requires lacks { named.has self.old.changes hash.now ≡ false }
        ensures changes { self.new.changes ≡ self.old.changes }
        ensures room { OnOk result (self.new.room ≡ Some hash.now) }
        ensures err { OnErr result (self.new.room ≡ self.old.room) }
    {
        self.lists.grow()?;
        self.by_actor
            .catch_up(self.alloc, self.lists.changes.as_slice())?;
        self.index
            .note(self.alloc, self.lists.changes.as_slice(), hash)?;
        self.room = Some(*hash);
        Ok(())
    }

    /// Enters a change that can enter and that there is room for, as the last, after the past of its dependencies
    /// where that is known. No memory.
    pub fn enter(&mut self, change: Change, past: Option<VersionVector>)
        requires enters { cause self.old.changes change ≡ None }
        requires room { self.old.room ≡ Some (hash_of change) }
        requires past { IsKnown self.old.changes change.deps past }
        ensures changes { self.new.changes ≡ self.old.changes ++ change ∷ [] }
        ensures room { self.new.room ≡ None }
    {
        let end = change.next_start();
        self.next = later(self.next, end);
        self.room = None;
        self.lists.push(change, narrow(end), past);
    }
}

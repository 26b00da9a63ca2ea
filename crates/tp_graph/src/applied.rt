//! The applied changes: their ancestry, marks of their operations, and what is made for the next one.

ghost use Rattle.std.specs.Prelude.{◌≡◌, ◌<◌, ◌≤◌, List, [], ◌∷◌, ◌++◌, length, Some, None, IfOk, IfSome, OnOk, OnErr};
ghost use Rattle.std.specs.List.{slice_get};
ghost use Rattle.tp_change.specs.ChangeHash.{hash_of};
ghost use Rattle.tp_layout.specs.declared.parts.ChangeParts.{ChangeParts};
ghost use Rattle.tp_ancestry.specs.VersionVectors.{IsKnown};
ghost use Rattle.tp_graph.specs.Causes.{MatchesCause};
ghost use Rattle.tp_graph.specs.Marked.{IsMarked};
ghost use Rattle.tp_graph.specs.Ready.{made_for, IsRoomFor};
ghost use Rattle.tp_history.specs.Fit.{cause, most_changes};
ghost use Rattle.tp_history.specs.Heads as head;
ghost use Rattle.tp_history.specs.Sound.{Sound};

use crate::marked::{self, Marked};
use std::alloc::{AllocError, Global};
use std::marker::Model;
use tp_ancestry::{Ancestry, VersionVector, same_hashes, vector_in};
use tp_change::Change;
use tp_history::GraphError;
use tp_opid::Hash;

/// What was made ready for the entry of a change, beside the room in the ancestry: its dependencies, where they aren't
/// the heads, the version vector of their past, where that is known, and room for the marks of its operations, where it
/// has many.
#[derive(Drop)]
pub(crate) struct Room {
    pub(crate) deps: Option<Vec<Hash>>,
    pub(crate) past: Option<VersionVector>,
    pub(crate) deletes: Vec<bool>,
}

/// The applied changes in the order in which they entered.
///
/// Contracts see what they see of the ancestry: the list, and for which change room was made. Marks of the changes of
/// many operations are kept beside it, and what the entry of the next change takes.
#[derive(Drop)]
pub(crate) struct Applied {
    ancestry: Ancestry,
    marked: Vec<Marked>,
    room: Option<Room>,
}

impl Model for Applied {
    ghost use Rattle.tp_ancestry.specs.AncestryState.{AncestryState};

    ghost Value = { AncestryState };

    ghost use Rattle.tp_graph.specs.Ready.{AreMarksAndRoom};

    ghost view = { λ a. a.ancestry };

    ghost invariant = { AreMarksAndRoom };
}

// The version vector of the past of the dependencies that was made ready, where it was made for these. Else a change
// enters whose hash is that of another, which was made ready for, and its version vector isn't known: there is no
// memory to make it.
fn vector_for(
    past: Option<VersionVector>,
    kept: Option<Vec<Hash>>,
    heads: &[Hash],
    deps: &[Hash],
) -> Option<VersionVector>
    ensures { (C : List ChangeParts) → IsKnown C (made_for heads.now kept) past → IsKnown C deps.now result }
{
    if same_hashes(deps, deps_or(&kept, heads)) {
        past
    } else {
        None
    }
}

// The dependencies that are kept, or else these.
fn deps_or<'a>(kept: &'a Option<Vec<Hash>>, heads: &'a [Hash]) -> &'a [Hash]
    ensures { result.now ≡ made_for heads.now kept.now }
{
    match kept {
        Some(deps) => deps.as_slice(),
        None => heads,
    }
}

impl Applied {
    /// No changes. It takes no memory.
    pub(crate) fn new(alloc: Global) -> Applied
        ensures changes { result.changes ≡ [] }
        ensures room { result.room ≡ None }
    {
        Applied {
            ancestry: Ancestry::new(alloc),
            marked: Vec::new(alloc),
            room: None,
        }
    }

    /// The same changes, copied, with what is kept beside them as it is. Nothing is made ready in the copy.
    pub(crate) fn copy(&self) -> Result<Applied, AllocError>
        ensures changes { IfOk result (λ a. a.changes ≡ self.now.changes) }
        ensures room { IfOk result (λ a. a.room ≡ None) }
    {
        Ok(Applied {
            ancestry: self.ancestry.copy()?,
            marked: self.marked.clone()?,
            room: None,
        })
    }

    /// The changes and their ancestry.
    pub(crate) fn ancestry(&self) -> &Ancestry
        ensures { result.now ≡ self.now }
    {
        &self.ancestry
    }

    /// The changes, in order.
    pub(crate) fn changes(&self) -> &[Change]
        ensures changes { result.now ≡ self.now.changes }
        ensures sound { Sound self.now.changes }
        ensures few { length self.now.changes ≤ most_changes }
    {
        self.ancestry.changes()
    }

    /// The marks of the change at the place, where they are kept: where it has many operations.
    pub(crate) fn marks_at(&self, place: usize) -> Option<&[bool]>
        ensures { IfSome result (λ deletes. (c : ChangeParts)
            → slice_get self.now.changes place ≡ Some c → IsMarked c deletes.now) }
    {
        marked::find(self.marked.as_slice(), place)
    }

    // A copy of the dependencies, where they aren't the heads.
    fn deps_for(&self, deps: &[Hash]) -> Result<Option<Vec<Hash>>, AllocError>
        ensures { IfOk result (λ kept. made_for (head.heads self.now.changes) kept ≡ deps.now) }
    {
        let ancestry = self.ancestry();
        if same_hashes(deps, ancestry.heads()) {
            return Ok(None);
        }
        Ok(Some(Vec::from_slice(ancestry.alloc(), deps)?))
    }

    // Makes what is kept of the change's past, where that is known, and of its operations.
    fn room_for(&self, change: &Change, past: Option<VersionVector>) -> Result<Room, AllocError>
        requires { IsKnown self.now.changes change.now.deps past }
        ensures { IfOk result (λ room. IsRoomFor self.now.changes change.now room) }
    {
        let deletes = marked::room_for(self.ancestry().alloc(), change)?;
        let deps = self.deps_for(change.deps())?;
        Ok(Room {
            deps,
            past,
            deletes,
        })
    }

    // Makes every growth that the entry of a change takes, after its past where that is known.
    fn reserve_after(
        &mut self,
        change: &Change,
        past: Option<VersionVector>,
    ) -> Result<(), AllocError>
        requires enters { cause self.old.changes change.now ≡ None }
        requires past { IsKnown self.old.changes change.now.deps past }
        ensures changes { self.new.changes ≡ self.old.changes }
        ensures room { OnOk result (self.new.room ≡ Some (hash_of change.now)) }
        ensures err { OnErr result (self.new.room ≡ self.old.room) }
    {
        let _changes = self.changes();
        let room = self.room_for(change, past)?;
        self.marked.reserve(1)?;
        self.ancestry.reserve(&change.hash())?;
        self.room = Some(room);
        Ok(())
    }

    /// Makes every growth that the entry of a change takes that can enter, without judging it.
    pub(crate) fn reserve(&mut self, change: &Change) -> Result<(), AllocError>
        requires { cause self.old.changes change.now ≡ None }
        ensures changes { self.new.changes ≡ self.old.changes }
        ensures room { OnOk result (self.new.room ≡ Some (hash_of change.now)) }
        ensures err { OnErr result (self.new.room ≡ self.old.room) }
    {
        let past = self.ancestry().known_past(change.deps())?;
        self.reserve_after(change, past)
    }

    /// Checks, and makes every growth that the entry of the change takes, after the past that was judged.
    pub(crate) fn ready(&mut self, change: &Change) -> Result<(), GraphError>
        ensures answers { MatchesCause result (cause self.old.changes change.now) }
        ensures changes { self.new.changes ≡ self.old.changes }
        ensures room { OnOk result (self.new.room ≡ Some (hash_of change.now)) }
        ensures err { OnErr result (self.new.room ≡ self.old.room) }
    {
        let past = vector_in(self.judge(change)?);
        self.reserve_after(change, past)?;
        Ok(())
    }

    /// Enters a change that can enter and that was made ready for, as the last. No memory.
    pub(crate) fn enter(&mut self, change: Change)
        requires enters { cause self.old.changes change ≡ None }
        requires room { self.old.room ≡ Some (hash_of change) }
        ensures changes { self.new.changes ≡ self.old.changes ++ change ∷ [] }
        ensures room { self.new.room ≡ None }
    {
        match self.room.take() {
            Some(room) => {
                let heads = self.ancestry.heads();
                let past = vector_for(room.past, room.deps, heads, change.deps());
                let place = self.ancestry.len();
                marked::keep(&mut self.marked, place, &change, room.deletes);
                self.ancestry.enter(change, past);
            }
            None => unreachable!(),
        }
    }
}

//! Which of the applied changes a past has.

ghost use Rattle.std.specs.Prelude.{◌≡◌, ◌<◌, ◌≤◌, List, length, None, IfOk, IsSome, OnErr};
ghost use Rattle.tp_opid.specs.declared.actor.Actor.{Actor};
ghost use Rattle.tp_opid.specs.declared.hash.Hash.{Hash};
ghost use Rattle.tp_layout.specs.declared.parts.ChangeParts.{ChangeParts};
ghost use Rattle.tp_history.specs.ByActor.{ArePlacesBy};
ghost use Rattle.tp_ancestry.specs.VersionVectors.{IsKnown};
ghost use Rattle.tp_history.specs.Fit as fit;
ghost use Rattle.tp_history.specs.Heads as head;
ghost use Rattle.tp_history.specs.Marks as marked;
ghost use Rattle.tp_ancestry.specs.PastSets as of_set;
ghost use Rattle.tp_ancestry.specs.PastSets.{bits, past_changes, IsPastSetIn, IsPastSetOf};
ghost use Rattle.tp_history.specs.Sound.{Sound};

use crate::ancestry::Ancestry;
use crate::vector::VersionVector;
use crate::walk::same_hashes;
use std::alloc::AllocError;
use tp_history::{ActorChanges, next_to_look_at};
use tp_opid::Hash;

/// Which of the applied changes a past has.
#[derive(Drop)]
pub enum PastSet {
    /// Those that the version vector holds.
    Within(VersionVector),
    /// Those that are marked: a mark for each, in applied order.
    Marked(Vec<bool>),
}

impl PastSet {
    /// Whether the past has the change at the place.
    pub fn holds(&self, ancestry: &Ancestry, place: usize) -> bool
        requires past_set { IsPastSetIn self.now ancestry.now.changes }
        requires place { place < length ancestry.now.changes }
        ensures { result ≡ of_set.holds self.now ancestry.now.changes place }
    {
        match self {
            PastSet::Within(vector) => vector.holds(ancestry, place),
            PastSet::Marked(marks) => marks[place],
        }
    }

    /// A place before which the past has every change.
    pub(crate) fn prefix(&self) -> usize
        ensures { result ≡ of_set.prefix_of self.now }
    {
        match self {
            PastSet::Within(vector) => vector.prefix,
            PastSet::Marked(_) => 0,
        }
    }
}

/// The version vector, where it is one.
pub fn vector_in(past_set: PastSet) -> Option<VersionVector>
    ensures { (C : List ChangeParts) (H : List Hash) → IsPastSetOf past_set C H → IsKnown C H result }
{
    match past_set {
        PastSet::Within(vector) => Some(vector),
        PastSet::Marked(_) => None,
    }
}

impl Ancestry {
    /// The version vector of the past of those of the hashes that are known. All changes where the hashes are the
    /// heads: that takes no memory. Elsewhere the version vectors of the changes with the hashes are joined: for each
    /// hash as many comparisons as the version vector and the join have latest places. None where one of them isn't
    /// known, or there are too many latest places.
    pub fn known_past(&self, hashes: &[Hash]) -> Result<Option<VersionVector>, AllocError>
        ensures known { IfOk result (IsKnown self.now.changes hashes.now) }
        ensures heads { hashes.now ≡ head.heads self.now.changes → IfOk result IsSome }
        ensures memory { OnErr result (hashes.now ≡ head.heads self.now.changes → ⊥) }
    {
        let changes = self.changes();
        if same_hashes(hashes, self.heads()) {
            return Ok(Some(VersionVector::whole(self.alloc(), changes.len())));
        }
        self.vector_of(hashes)
    }

    /// Which of the changes the past of those of the hashes that are known has, whose version vector is given where it
    /// is known. Only where it isn't are the changes walked back over.
    pub fn past_set_of(
        &self,
        hashes: &[Hash],
        past: Option<VersionVector>,
    ) -> Result<PastSet, AllocError>
        requires { IsKnown self.now.changes hashes.now past }
        ensures bits { IfOk result
            (λ past_set. bits past_set self.now.changes ≡ marked.marks self.now.changes hashes.now) }
        ensures past_set { IfOk result (λ past_set. IsPastSetIn past_set self.now.changes) }
        ensures of { IfOk result (λ past_set. IsPastSetOf past_set self.now.changes hashes.now) }
        ensures memory { OnErr result (past ≡ None) }
    {
        let _changes = self.changes();
        match past {
            Some(vector) => Ok(PastSet::Within(vector)),
            None => Ok(PastSet::Marked(self.walk_back(hashes)?)),
        }
    }

    /// Which of the changes the past of those of the hashes that are known has.
    pub fn past_set(&self, hashes: &[Hash]) -> Result<PastSet, AllocError>
        ensures bits { IfOk result
            (λ past_set. bits past_set self.now.changes ≡ marked.marks self.now.changes hashes.now) }
        ensures past_set { IfOk result (λ past_set. IsPastSetIn past_set self.now.changes) }
        ensures of { IfOk result (λ past_set. IsPastSetOf past_set self.now.changes hashes.now) }
        ensures memory { OnErr result (hashes.now ≡ head.heads self.now.changes → ⊥) }
    {
        let past = self.known_past(hashes)?;
        self.past_set_of(hashes, past)
    }

    /// How many changes of the past the actor made whose changes are at these places: the sequence number of its
    /// latest there. As many questions to the past as the logarithm of the number of the actor's changes; few where the
    /// past has almost all of them.
    pub fn count_in(&self, past_set: &PastSet, own: &ActorChanges<'_>) -> u64
        requires past { Sound (past_changes past_set.now self.now.changes) }
        requires past_set { IsPastSetIn past_set.now self.now.changes }
        requires own { (a : Actor) × ArePlacesBy self.now.changes a own.now }
        ensures count { (a : Actor) → ArePlacesBy self.now.changes a own.now
            → result ≡ fit.count_by a (past_changes past_set.now self.now.changes) }
        ensures few { result ≤ length self.now.changes }
    {
        let _changes = self.changes();
        let mut low = 0;
        let mut high = own.len();
        while low < high {
            let middle = next_to_look_at(low, high, own.len());
            if past_set.holds(self, own.get(middle)) {
                low = middle + 1;
            } else {
                high = middle;
            }
        }
        low as u64
    }
}

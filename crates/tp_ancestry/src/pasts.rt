//! How far the past of each applied change reaches, as it is kept: four bytes for a change whose past is all that
//! is before a place, a version vector for any other.

ghost use Rattle.std.specs.Prelude.{◌≡◌, ◌<◌, List, [], ◌∷◌, ◌++◌, length, Some, IfSome, vec_len, vec_capacity};
ghost use Rattle.std.specs.List.{slice_get};
ghost use Rattle.tp_opid.specs.declared.hash.Hash.{Hash as HashOf};
ghost use Rattle.tp_layout.specs.declared.parts.ChangeParts.{ChangeParts};
ghost use Rattle.tp_ancestry.specs.Copies.{IsSameVectorAt, AreSamePasts};
ghost use Rattle.tp_ancestry.specs.VersionVectors.{IsVectorOf, IsKnown};
ghost use Rattle.tp_ancestry.specs.Pasts.{IsSpan, AreVectorsAt, ArePasts};
ghost use Rattle.tp_history.specs.Sound.{Sound, Fits};

use crate::lists::push_within;
use crate::vector::VersionVector;
use std::alloc::{AllocError, Global};
use tp_history::next_to_look_at;
use tp_list::copy_with_room;

/// Stands for a past that isn't all before a place, or isn't known: no list has more changes.
pub(crate) const NO_PREFIX: u32 = 4_294_967_295;

/// The version vector of the past of the change at the place.
#[derive(Drop)]
pub(crate) struct VectorAt {
    pub(crate) place: usize,
    pub(crate) vector: VersionVector,
}

impl Clone for VectorAt {
    ghost is_clone = { IsSameVectorAt };

    fn clone(&self) -> Result<VectorAt, AllocError> {
        Ok(VectorAt {
            place: self.place,
            vector: self.vector.clone()?,
        })
    }
}

/// For each change the place before which all changes are its past, or `NO_PREFIX`; and the version vectors of pasts
/// that are no such ones.
#[derive(Drop)]
pub(crate) struct Pasts {
    pub(crate) prefixes: Vec<u32>,
    pub(crate) vectors: Vec<VectorAt>,
}

impl Clone for Pasts {
    ghost is_clone = { AreSamePasts };

    fn clone(&self) -> Result<Pasts, AllocError> {
        Ok(Pasts {
            prefixes: copy_with_room(*self.prefixes.allocator(), self.prefixes.as_slice())?,
            vectors: self.vectors.clone()?,
        })
    }
}

// The prefix of the version vector, where it holds no more than that; else `NO_PREFIX`.
fn span_of(past: &Option<VersionVector>) -> u32
    ensures { (C : List ChangeParts) (H : List HashOf) → IsKnown C H past.now → result < NO_PREFIX
        → IsSpan C H result }
{
    match past {
        Some(vector) => {
            if vector.prefix < NO_PREFIX as usize && vector.latest.is_empty() {
                vector.prefix as u32
            } else {
                NO_PREFIX
            }
        }
        None => NO_PREFIX,
    }
}

/// The version vector of the past of the change at the place, where it is kept separately. The entries are in the order
/// of their places, so it takes a number of comparisons that grows with the logarithm of their number, and few for one
/// of the latest; where they didn't, a version vector could be missed.
pub(crate) fn find(vectors: &[VectorAt], place: usize) -> Option<&VersionVector>
    ensures { IfSome result (λ vector. (C : List ChangeParts) → AreVectorsAt C vectors.now
        → (c : ChangeParts) → slice_get C place ≡ Some c → IsVectorOf C c.deps vector.now) }
{
    let mut low = 0;
    let mut high = vectors.len();
    while low < high {
        let middle = next_to_look_at(low, high, vectors.len());
        if vectors[middle].place < place {
            low = middle + 1;
        } else {
            high = middle;
        }
    }
    if low == vectors.len() {
        return None;
    }
    if vectors[low].place != place {
        return None;
    }
    Some(&vectors[low].vector)
}

impl Pasts {
    /// Those of no changes. It takes no memory.
    pub(crate) fn new(alloc: Global) -> Pasts
        ensures prefixes { result.prefixes.items ≡ [] }
        ensures vectors { result.vectors.items ≡ [] }
    {
        Pasts {
            prefixes: Vec::new(alloc),
            vectors: Vec::new(alloc),
        }
    }

    /// Puts the past of a change that enters at the end. There is room for it.
    pub(crate) fn push(&mut self, past: Option<VersionVector>)
        requires prefixes { vec_len self.old.prefixes < vec_capacity self.old.prefixes }
        requires vectors { vec_len self.old.vectors < vec_capacity self.old.vectors }
        ensures { (C : List ChangeParts) (x : ChangeParts) → Sound C → Fits C x
            → ArePasts C self.old.prefixes.items self.old.vectors.items → IsKnown C x.deps past
            → ArePasts (C ++ x ∷ []) self.new.prefixes.items self.new.vectors.items }
    {
        let place = self.prefixes.len();
        let prefix = span_of(&past);
        push_within(&mut self.prefixes, prefix);
        if prefix < NO_PREFIX {
            return;
        }
        if let Some(vector) = past {
            push_within(&mut self.vectors, VectorAt { place, vector });
        }
    }

    /// Where the past of the change at the place is all before a place: that place.
    pub(crate) fn span(&self, place: usize) -> Option<usize>
        requires { place < length self.now.prefixes.items }
        ensures { IfSome result (λ prefix. (C : List ChangeParts)
            → ArePasts C self.now.prefixes.items self.now.vectors.items
            → (c : ChangeParts) → slice_get C place ≡ Some c → IsSpan C c.deps prefix) }
    {
        let prefix = self.prefixes[place];
        if prefix < NO_PREFIX {
            Some(prefix as usize)
        } else {
            None
        }
    }
}

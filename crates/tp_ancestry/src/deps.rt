//! What its dependencies say of a change: where it starts, and how far its past reaches. Each is looked up once for
//! both.

ghost use Rattle.std.specs.Prelude.{◌≡◌, ◌+◌, ◌<◌, false, length, IfOk, IfSome, IsTrue, MatchOption, OnErr, OnOk};
ghost use Rattle.tp_ancestry.specs.Deps.{HasJoined, IsBehind, IsJoined};
ghost use Rattle.tp_ancestry.specs.VersionVectors.{IsPlaced};
ghost use Rattle.tp_history.specs.Heads as head;
ghost use Rattle.tp_history.specs.Named as named;

use crate::ancestry::Ancestry;
use crate::lists::later;
use crate::vector::VersionVector;
use crate::walk::same_hashes;
use std::alloc::AllocError;
use tp_opid::Hash;

/// Where a change with some dependencies starts, and the version vector of their past, where that is known.
#[derive(Drop)]
pub struct Behind {
    pub start: u64,
    pub past: Option<VersionVector>,
}

impl Ancestry {
    // Puts the change at the place and its past into a version vector that is known. Where the version vector of its
    // past isn't, or where there would be too many latest places, it no longer is.
    fn join_past(&self, past: &mut Option<VersionVector>, place: usize) -> Result<(), AllocError>
        requires past { IfSome past.old (IsPlaced self.now.changes) }
        requires place { place < length self.now.changes }
        ensures { OnOk result (HasJoined self.now.changes place past.old past.new) }
    {
        let known = match past {
            Some(vector) => self.take_change(vector, place)?,
            None => true,
        };
        if !known {
            *past = None;
        }
        Ok(())
    }

    // Joins the hash with the given number. False where no change has it.
    fn join_hash(
        &self,
        beyond: &mut Behind,
        hashes: &[Hash],
        number: usize,
    ) -> Result<bool, AllocError>
        requires number { number < length hashes.now }
        requires joined { IsJoined self.now.changes hashes.now number beyond.old }
        ensures joined { IfOk result (λ known. IsTrue known
            → IsJoined self.now.changes hashes.now (number + 1) beyond.new) }
        ensures missing { IfOk result (λ known. known ≡ false
            → named.has_all self.now.changes hashes.now ≡ false) }
    {
        let _changes = self.changes();
        match self.place(&hashes[number]) {
            Some(place) => {
                self.join_past(&mut beyond.past, place)?;
                beyond.start = later(beyond.start, self.end_at(place));
                Ok(true)
            }
            None => Ok(false),
        }
    }

    // What hashes that aren't the heads say of a change that depends on them; `None` where no change has one of them.
    fn join_hashes(&self, hashes: &[Hash]) -> Result<Option<Behind>, AllocError>
        ensures { IfOk result (λ o. MatchOption o
            (named.has_all self.now.changes hashes.now ≡ false)
            (IsJoined self.now.changes hashes.now (length hashes.now))) }
    {
        let mut beyond = Behind {
            start: 1,
            past: Some(VersionVector::empty(self.alloc())),
        };
        for number in 0..hashes.len() {
            if !self.join_hash(&mut beyond, hashes, number)? {
                return Ok(None);
            }
        }
        if let Some(vector) = &mut beyond.past {
            vector.tidy(self);
        }
        Ok(Some(beyond))
    }

    /// Where a change with these dependencies starts, and the version vector of their past, where that is known. None
    /// where no change has one of them. Where they are the heads: no look-up and no memory; else a look-up for each,
    /// and as many comparisons as their version vectors have latest places.
    pub fn beyond(&self, hashes: &[Hash]) -> Result<Option<Behind>, AllocError>
        ensures beyond { IfOk result (λ o. MatchOption o
            (named.has_all self.now.changes hashes.now ≡ false)
            (IsBehind self.now.changes hashes.now)) }
        ensures memory { OnErr result (hashes.now ≡ head.heads self.now.changes → ⊥) }
    {
        let changes = self.changes();
        if same_hashes(hashes, self.heads()) {
            return Ok(Some(Behind {
                start: self.next_counter(),
                past: Some(VersionVector::whole(self.alloc(), changes.len())),
            }));
        }
        self.join_hashes(hashes)
    }
}

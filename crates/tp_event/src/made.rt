//! The changes that were made in a world, and their hashes.

ghost use Rattle.std.specs.Prelude.{◌≡◌, ◌<◌, ◌++◌, ◌∷◌, [], true, OnOk, IsTrue};
ghost use Rattle.tp_change.specs.ChangeHash.{hash_of};
ghost use Rattle.tp_history.specs.Named.{has};
ghost use Rattle.tp_event.specs.Made.{MayBeMade, is_noted};

use std::alloc::{AllocError, Global};
use std::collections::BTreeSet;
use std::marker::Model;
use tp_change::Change;
use tp_opid::Hash;

/// The changes that were made, in the order in which they were. The hash of each is noted before it is made, in an
/// ordered set, by which one look-up tells nearly every hash that no change has.
///
/// Contracts see the changes, how many more there is room for, and the hashes that are noted.
#[derive(Drop)]
pub struct Made {
    changes: Vec<Change>,
    // The hash of each change, and of the one that is about to be made.
    hashes: BTreeSet<Hash>,
}

impl Model for Made {
    ghost use Rattle.std.specs.Prelude.{◌-◌, vec_len, vec_capacity};
    ghost use Rattle.tp_event.specs.Made.{HashesAreNoted, MadeState};

    ghost Value = { MadeState };

    ghost view = { λ m. record {
      items = m.changes.items;
      spare = vec_capacity m.changes - vec_len m.changes;
      noted = m.hashes.keys;
    } };

    ghost invariant = { λ m. HashesAreNoted m.changes.items m.hashes.keys };
}

// Whether a change has the hash. One pass over them.
fn has_hash(changes: &[Change], hash: &Hash) -> bool
    ensures { result ≡ has changes.now hash.now }
{
    for change in changes {
        if change.hash().is(hash) {
            return true;
        }
    }
    false
}

impl Made {
    /// No change yet. No memory.
    pub(crate) fn new(alloc: Global) -> Made
        ensures { result.items ≡ [] }
    {
        Made {
            changes: Vec::new(alloc),
            hashes: BTreeSet::new(alloc),
        }
    }

    /// The changes.
    #[inline]
    pub fn as_slice(&self) -> &[Change]
        ensures { result.now ≡ self.now.items }
    {
        &self.changes
    }

    /// Whether a change has the hash. One look-up, and where the hash is noted one pass over the changes.
    #[tactic(auto, unfolding(tp_opid::specs::Order::hash_cmp, tp_opid::specs::Same::same_hash))]
    pub fn has(&self, hash: &Hash) -> bool
        ensures { result ≡ has self.now.items hash.now }
    {
        self.hashes.contains(hash) && has_hash(&self.changes, hash)
    }

    /// Makes room for a change, and notes the hash of this one, if there is one. One look-up.
    pub(crate) fn prepare(&mut self, change: &Option<Change>) -> Result<(), AllocError>
        ensures items { self.new.items ≡ self.old.items }
        ensures ready { OnOk result (MayBeMade self.new change.now) }
    {
        self.changes.reserve(1)?;
        if let Some(change) = change {
            self.hashes.insert(change.hash())?;
        }
        Ok(())
    }

    /// Takes the note of the hash of a change back, if there is one that wasn't made: no hash is kept that no change has.
    /// One look-up, and one pass over the changes.
    pub(crate) fn forget(&mut self, change: &Option<Change>)
        ensures { self.new.items ≡ self.old.items }
    {
        if let Some(change) = change {
            let hash = change.hash();
            if !has_hash(&self.changes, &hash) {
                self.hashes.remove(&hash);
            }
        }
    }

    /// Puts a change after the others. There is room for it, and its hash is noted.
    pub(crate) fn push_reserved(&mut self, change: Change)
        requires room { 0 < self.old.spare }
        requires noted { IsTrue (is_noted self.old.noted (hash_of change)) }
        ensures { self.new.items ≡ self.old.items ++ change ∷ [] }
    {
        self.changes.push_reserved(change);
    }
}

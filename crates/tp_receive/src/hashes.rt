//! Hashes of changes.

ghost use Rattle.std.specs.Prelude.{◌≡◌, ◌++◌, ◌∷◌, [], ◌||◌, List, true, IfOk, OnOk, IsTrue};
ghost use Rattle.tp_layout.specs.declared.parts.ChangeParts.{ChangeParts};
ghost use Rattle.tp_opid.specs.declared.hash.Hash.{Hash as HashOf};
ghost use Rattle.tp_opid.specs.Same.{same_hash};
ghost use Rattle.tp_receive.specs.HashSets.{has_hash, IsHashSetOf};
ghost use Rattle.tp_receive.specs.Receiving as receiving;

use std::alloc::{AllocError, Global};
use std::collections::BTreeSet;
use std::marker::Model;
use tp_change::Change;
use tp_opid::Hash;

/// Whether the two are one hash. Where their first bytes differ it looks at no others.
pub(crate) fn is_one(x: &Hash, y: &Hash) -> bool
    ensures { result ≡ same_hash x.now y.now }
{
    if x.0[0] != y.0[0] {
        return false;
    }
    x.is(y)
}

// How many of the hashes that were added last are compared before all are put in order.
const RECENT: usize = 4;

/// A set of hashes. They are put in order only once one of them is asked for: in nearly every list none is, since the
/// change that is asked for is one of the last. Whatever hashes strangers choose, each that is added or asked for takes
/// a number of comparisons that grows with the logarithm of how many there are.
#[derive(Drop)]
pub(crate) struct HashSet {
    sorted: BTreeSet<Hash>,
    // Those that aren't in order yet, as they were added.
    late: Vec<Hash>,
}

impl Model for HashSet {
    ghost use Rattle.std.specs.Prelude.{List, ◌++◌};
    ghost use Rattle.tp_opid.specs.declared.hash.Hash.{Hash};

    ghost Value = { List Hash };

    ghost view = { λ s. s.sorted.keys ++ s.late.items };
}

// Puts the hashes into the ordered set. One look-up each.
fn put_in(sorted: &mut BTreeSet<Hash>, late: &[Hash]) -> Result<(), AllocError>
    ensures { OnOk result ((h : HashOf) → has_hash sorted.new.keys h
        ≡ (has_hash sorted.old.keys h || has_hash late.now h)) }
{
    for hash in late {
        sorted.insert(*hash)?;
    }
    Ok(())
}

impl HashSet {
    /// No hash, and room for `room`.
    pub(crate) fn with_room(alloc: Global, room: usize) -> Result<HashSet, AllocError>
        ensures { IfOk result (λ set. set ≡ []) }
    {
        Ok(HashSet {
            sorted: BTreeSet::new(alloc),
            late: Vec::with_capacity(alloc, room)?,
        })
    }

    /// Whether the hash is one of the last few that were added. One that isn't may be there. A comparison for each.
    pub(crate) fn is_recent(&self, hash: &Hash) -> bool
        ensures { IsTrue result → IsTrue (has_hash self.now hash.now) }
    {
        let count = self.late.len();
        for i in 0..RECENT.min(count) {
            if is_one(hash, &self.late[count - 1 - i]) {
                return true;
            }
        }
        false
    }

    /// Whether it has the hash. One look-up, and one for each hash that was added since the last was asked for.
    #[tactic(auto, unfolding(tp_opid::specs::Order::hash_cmp, tp_opid::specs::Same::same_hash))]
    pub(crate) fn contains(&mut self, hash: &Hash) -> Result<bool, AllocError>
        ensures there { IfOk result (λ there. there ≡ has_hash self.old hash.now) }
        ensures stays { OnOk result ((h : HashOf) → has_hash self.new h ≡ has_hash self.old h) }
    {
        put_in(&mut self.sorted, &self.late)?;
        self.late.clear();
        Ok(self.sorted.contains(hash))
    }

    /// Takes in a hash. No comparison.
    pub(crate) fn add(&mut self, hash: Hash) -> Result<(), AllocError>
        ensures { OnOk result
            ((h : HashOf) → has_hash self.new h ≡ (same_hash hash h || has_hash self.old h)) }
    {
        self.late.push(hash)?;
        Ok(())
    }
}

/// The hashes of the changes, in their order.
pub(crate) fn list_of(alloc: Global, changes: &[Change]) -> Result<Vec<Hash>, AllocError>
    ensures { IfOk result (λ list. IsHashSetOf list.items changes.now) }
{
    let mut hashes = Vec::with_capacity(alloc, changes.len())?;
    for change in changes {
        hashes.push(change.hash())?;
    }
    Ok(hashes)
}

/// The hashes of the changes as a set.
pub(crate) fn hashes_of(alloc: Global, changes: &[Change]) -> Result<HashSet, AllocError>
    ensures { IfOk result (λ set. IsHashSetOf set changes.now) }
{
    Ok(HashSet {
        sorted: BTreeSet::new(alloc),
        late: list_of(alloc, changes)?,
    })
}

/// Hashes in order.
#[derive(Drop)]
struct Sorted {
    hashes: Vec<Hash>,
}

impl Model for Sorted {
    ghost use Rattle.std.specs.Prelude.{List};
    ghost use Rattle.std.specs.List.Sorted.{IsSorted};
    ghost use Rattle.tp_opid.specs.declared.hash.Hash.{Hash};
    ghost use Rattle.tp_opid.specs.Order.{hash_cmp};

    ghost Value = { List Hash };

    ghost view = { λ s. s.hashes.items };

    ghost invariant = { λ s. IsSorted hash_cmp s.hashes.items };
}

impl Sorted {
    // The hashes of the list, put in order where they are. It takes no memory, and whatever hashes strangers choose a
    // number of comparisons that grows as n log n.
    fn of(hashes: Vec<Hash>) -> Sorted
        ensures { (h : HashOf) → has_hash result h ≡ has_hash hashes.items h }
    {
        let mut hashes = hashes;
        hashes.sort_unstable();
        Sorted { hashes }
    }

    // Whether it has the hash. A number of comparisons that grows with the logarithm of how many there are.
    fn has(&self, hash: &Hash) -> bool
        ensures { result ≡ has_hash self.now hash.now }
    {
        self.hashes.binary_search(hash).is_ok()
    }
}

// Notes the hash of the change where it is one of those that came.
fn note_held(held: &mut Vec<Hash>, came: &Sorted, change: &Change) -> Result<(), AllocError>
    ensures { (K : List ChangeParts) → IsHashSetOf came.now K → IfOk result (λ _. held.new.items
        ≡ held.old.items ++ receiving.held_of (receiving.hashes K) (change.now ∷ [])) }
{
    let hash = change.hash();
    if came.has(&hash) {
        held.push(hash)?;
    }
    Ok(())
}

// The hashes of those changes that are among the hashes that came, in the order of the changes.
fn held_among(alloc: Global, came: &Sorted, changes: &[Change]) -> Result<Vec<Hash>, AllocError>
    ensures { (K : List ChangeParts) → IsHashSetOf came.now K
        → IfOk result (λ v. v.items ≡ receiving.held_of (receiving.hashes K) changes.now) }
{
    let mut held = Vec::new(alloc);
    for change in changes {
        note_held(&mut held, came, change)?;
    }
    Ok(held)
}

/// The hashes of those changes that are among the hashes that came, in the order of the changes. Where there are
/// changes, those that came are put in order first, which takes no memory: only the hashes that are given do.
pub(crate) fn held_of(
    alloc: Global,
    came: Vec<Hash>,
    changes: &[Change],
) -> Result<Vec<Hash>, AllocError>
    ensures { (K : List ChangeParts) → IsHashSetOf came.items K
        → IfOk result (λ v. v.items ≡ receiving.held_of (receiving.hashes K) changes.now) }
{
    if changes.is_empty() {
        return Ok(Vec::new(alloc));
    }
    held_among(alloc, &Sorted::of(came), changes)
}

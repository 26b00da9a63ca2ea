//! The slots that are reserved for the changes of a list that are still to come.

ghost use Rattle.std.specs.Prelude.{◌≡◌, ◌++◌, List, length, IfOk, OnOk};
ghost use Rattle.tp_layout.specs.declared.parts.ChangeParts.{ChangeParts};
ghost use Rattle.tp_receive.specs.Common.{Hash as HashOf, zip};
ghost use Rattle.tp_history.specs.Named as named;
ghost use Rattle.tp_receive.specs.HashSets.{has_hash, IsHashSetOf};
ghost use Rattle.tp_receive.specs.Delivery.{delivery, with_slots};
ghost use Rattle.tp_receive.specs.Trying.{IsNoted};
ghost use Rattle.tp_receive.specs.Delivery as delivery_of;

use crate::hashes::{HashSet, hashes_of};
use crate::replica::Replica;
use std::alloc::{AllocError, Global};
use tp_change::Change;
use tp_opid::Hash;

// Whether the hash is that of an applied change, or one of the hashes of the deliverable ones. Those of the last few of
// these are compared before anything is looked up, since each change is mostly the next of a chain.
fn is_there<R: Replica>(
    replica: &R,
    delivered: &mut HashSet,
    hash: &Hash,
) -> Result<bool, AllocError>
    ensures there { (D : List ChangeParts) → IsHashSetOf delivered.old D
        → IfOk result (λ there. there ≡ named.has (R.applied replica.now ++ D) hash.now) }
    ensures stays { OnOk result
        ((h : HashOf) → has_hash delivered.new h ≡ has_hash delivered.old h) }
{
    if delivered.is_recent(hash) {
        return Ok(true);
    }
    if replica.contains(hash) {
        return Ok(true);
    }
    delivered.contains(hash)
}

// Whether each of the hashes is there.
fn all_there<R: Replica>(
    replica: &R,
    delivered: &mut HashSet,
    hashes: &[Hash],
) -> Result<bool, AllocError>
    ensures there { (D : List ChangeParts) → IsHashSetOf delivered.old D
        → IfOk result (λ there. there ≡ named.has_all (R.applied replica.now ++ D) hashes.now) }
    ensures stays { OnOk result
        ((h : HashOf) → has_hash delivered.new h ≡ has_hash delivered.old h) }
{
    for hash in hashes {
        if !is_there(replica, delivered, hash)? {
            return Ok(false);
        }
    }
    Ok(true)
}

// Whether the next change takes a slot of its own. It is noted as deliverable, or as one that has a slot.
fn note<R: Replica>(
    replica: &R,
    delivered: &mut HashSet,
    slotted: &mut HashSet,
    change: &Change,
) -> Result<bool, AllocError>
    ensures { (D V : List ChangeParts) → IsHashSetOf delivered.old D → IsHashSetOf slotted.old V
        → IfOk result (λ slot. IsNoted D V
        (change.now, named.has_all (R.applied replica.now ++ D) change.now.deps)
        delivered.new slotted.new slot) }
{
    let hash = change.hash();
    if all_there(replica, delivered, change.deps())? {
        delivered.add(hash)?;
        return Ok(false);
    }
    if slotted.contains(&hash)? {
        return Ok(false);
    }
    slotted.add(hash)?;
    Ok(true)
}

/// The slots that are reserved for changes that are still to come.
#[derive(Drop)]
pub(crate) struct Slots {
    /// Of each of the changes, in their order, whether a slot is reserved for it.
    pub(crate) marks: Vec<bool>,
    /// How many slots are reserved.
    pub(crate) reserved: usize,
}

/// The slots that are reserved for the changes of a list: one for each that is undeliverable where neither a pending
/// change nor an earlier undeliverable one has its hash. A few comparisons for each change and each dependency, where
/// that is one of the last few changes, and else a few look-ups.
pub(crate) fn reserve<R: Replica>(
    alloc: Global,
    replica: &R,
    changes: &[Change],
) -> Result<Slots, AllocError>
    ensures long { IfOk result (λ slots. length slots.marks.items ≡ length changes.now) }
    ensures marks { IfOk result (λ slots. zip changes.now slots.marks.items
        ≡ with_slots (R.waiting replica.now) (delivery (R.applied replica.now) changes.now)) }
    ensures reserved { IfOk result
        (λ slots. slots.reserved ≡ delivery_of.slots (zip changes.now slots.marks.items)) }
{
    let mut delivered = HashSet::with_room(alloc, changes.len())?;
    let mut slotted = hashes_of(alloc, replica.pending())?;
    let mut marks = Vec::with_capacity(alloc, changes.len())?;
    let mut reserved = 0;
    for change in changes {
        let slot = note(replica, &mut delivered, &mut slotted, change)?;
        if slot {
            reserved += 1;
        }
        marks.push(slot)?;
    }
    Ok(Slots { marks, reserved })
}

//! The lists of an ancestry: its changes, and what is kept for each.

ghost use Rattle.std.specs.Prelude.{◌≡◌, [], ◌∷◌, ◌++◌, IfOk, OnOk, vec_len, vec_capacity, ◌<◌};
ghost use Rattle.tp_list.specs.Rising as list;
ghost use Rattle.tp_opid.specs.Order.{hash_cmp};
ghost use Rattle.tp_change.specs.ChangeHash.{hash_of};
ghost use Rattle.tp_change.specs.Elements as made;
ghost use Rattle.tp_ancestry.specs.Copies.{AreSameLists};
ghost use Rattle.tp_ancestry.specs.VersionVectors.{IsKnown};
ghost use Rattle.tp_history.specs.Heads as head;
ghost use Rattle.tp_ancestry.specs.Lists.{HasRoom, HasSameItems, AreEmpty};
ghost use Rattle.tp_ancestry.specs.Pasts.{ArePasts};
ghost use Rattle.tp_history.specs.Sound.{Sound, Fits};

use crate::heads;
use crate::pasts::Pasts;
use crate::vector::VersionVector;
use std::alloc::{AllocError, Global};
use tp_change::Change;
use tp_list::{copy_with_room, with_room};
use tp_opid::Hash;

/// Stands for a counter that four bytes don't hold.
pub(crate) const WIDE: u32 = 4_294_967_295;

/// The changes in the order in which they entered, their heads, and for each change where its counters end and how far
/// the past of its dependencies reaches.
#[derive(Drop)]
pub(crate) struct Lists {
    pub(crate) changes: Vec<Change>,
    pub(crate) heads: Vec<Hash>,
    pub(crate) ends: Vec<u32>,
    pub(crate) pasts: Pasts,
}

/// Puts an item at the end of a vector that has room for it.
pub fn push_within<T: Drop>(items: &mut Vec<T>, item: T)
    requires { vec_len items.old < vec_capacity items.old }
    ensures { items.new.items ≡ items.old.items ++ item ∷ [] }
{
    match items.push(item) {
        Ok(()) => {}
        Err(_) => unreachable!(),
    }
}

/// The counter in four bytes, or `WIDE`.
pub(crate) fn narrow(counter: u64) -> u32
    ensures { result < WIDE → result ≡ counter }
{
    if counter < WIDE as u64 {
        counter as u32
    } else {
        WIDE
    }
}

/// The greater of the two.
pub(crate) fn later(a: u64, b: u64) -> u64
    ensures { result ≡ made.later a b }
{
    if a < b { b } else { a }
}

// Copies of the changes, one by one, with room for more.
fn copies_of(alloc: Global, changes: &[Change]) -> Result<Vec<Change>, AllocError>
    ensures { IfOk result (λ v. v.items ≡ changes.now) }
{
    let mut copies = Vec::with_capacity(alloc, with_room(changes.len()))?;
    for change in changes {
        match change.copy() {
            Ok(copied) => copies.push(copied)?,
            Err(_) => return Err(AllocError),
        }
    }
    Ok(copies)
}

impl Lists {
    /// No changes. It takes no memory.
    pub(crate) fn new(alloc: Global) -> Lists
        ensures { AreEmpty result }
    {
        Lists {
            changes: Vec::new(alloc),
            heads: Vec::new(alloc),
            ends: Vec::new(alloc),
            pasts: Pasts::new(alloc),
        }
    }

    /// Equal lists, with room for more changes. These are copied one by one, and what is kept of them as it is.
    pub(crate) fn copy(&self, alloc: Global) -> Result<Lists, AllocError>
        ensures { IfOk result (AreSameLists self.now) }
    {
        Ok(Lists {
            changes: copies_of(alloc, self.changes.as_slice())?,
            heads: Vec::from_slice(alloc, self.heads.as_slice())?,
            ends: copy_with_room(alloc, self.ends.as_slice())?,
            pasts: self.pasts.clone()?,
        })
    }

    /// Makes room for one more change. Room that was there stays.
    pub(crate) fn grow(&mut self) -> Result<(), AllocError>
        ensures same { HasSameItems self.old self.new }
        ensures room { OnOk result (HasRoom self.new) }
        ensures stays { HasRoom self.old → HasRoom self.new }
    {
        self.changes.reserve(1)?;
        self.heads.reserve(1)?;
        self.ends.reserve(1)?;
        self.pasts.prefixes.reserve(1)?;
        self.pasts.vectors.reserve(1)?;
        Ok(())
    }

    /// Puts a change at the end. There is room for it.
    pub(crate) fn push(&mut self, change: Change, end: u32, past: Option<VersionVector>)
        requires { HasRoom self.old }
        ensures changes { self.new.changes.items ≡ self.old.changes.items ++ change ∷ [] }
        ensures heads { self.new.heads.items ≡ list.put hash_cmp (hash_of change)
            (head.without change.deps self.old.heads.items) }
        ensures ends { self.new.ends.items ≡ self.old.ends.items ++ end ∷ [] }
        ensures pasts { Sound self.old.changes.items → Fits self.old.changes.items change
            → ArePasts self.old.changes.items self.old.pasts.prefixes.items self.old.pasts.vectors.items
            → IsKnown self.old.changes.items change.deps past
            → ArePasts self.new.changes.items self.new.pasts.prefixes.items self.new.pasts.vectors.items }
    {
        heads::move_on(&mut self.heads, change.deps(), change.hash());
        push_within(&mut self.ends, end);
        self.pasts.push(past);
        push_within(&mut self.changes, change);
    }
}

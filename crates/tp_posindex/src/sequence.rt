//! A sequence whose elements are in blocks.

ghost use Rattle.tp_opid.specs.Tree.{IsThere, IsNew};
ghost use Rattle.std.specs.Prelude.{◌≡◌, ◌↔◌, ℕ, ◌+◌, ◌-◌, ◌^◌, ◌<◌, ◌≤◌, List, [], ◌∷◌, ◌++◌, length, IsTrue, IsOk, OnOk, OnErr, Some, MatchOption, IfOk, IfSome, IfNone, IsSome, slice_get};
ghost use Rattle.tp_opid.specs.declared.op_id.OpId.{OpId as Id};
ghost use Rattle.tp_opid.specs.Insert.{Insert};
ghost use Rattle.tp_posindex.specs.Layout.{concat_blocks, block_at, index_at, IsAfter, AreSized};
ghost use Rattle.tp_posindex.specs.BlockState.{IsInfoOf};

use crate::block_info::BlockInfo;
use crate::blocks::Blocks;
use crate::spots::spot_for;
use std::alloc::{AllocError, Global};
use std::marker::Model;
use tp_elements::Elements;
use tp_list::copy_with_room;
use tp_opid::{OpId, Place};
use tp_rga::{Element, Seen, Sequence, Spot, Walk};

/// A sequence whose elements are in blocks of up to 128, at most 4,294,967,295 of them with the deleted ones.
///
/// An insert moves no element, and at most 128 numbers of four bytes; it splits a full block into two of 64. A look-up
/// by identifier takes as many steps as the logarithms of how many elements its actor has and of how many actors there are.
/// What goes by position, and where an element is, passes over four bytes for each 2,048 blocks before it and for up
/// to 144 more, and looks into one block; `len` and `all` pass over nothing.
pub struct BlockSequence {
    elements: Elements,
    blocks: Blocks,
    deletes: Vec<(OpId, OpId)>,
    left: usize,
}

impl Drop for BlockSequence {
    fn drop(self) {
        let BlockSequence {
            elements: _,
            blocks: _,
            deletes: _,
            left: _,
        } = self;
    }
}

impl Model for BlockSequence {
    ghost use Rattle.std.specs.Prelude.{◌-◌, min};
    ghost use Rattle.std.specs.Vec.{vec_len, vec_capacity};
    ghost use Rattle.tp_posindex.specs.BlockState.{BlockState};
    ghost use Rattle.tp_posindex.specs.Laid.{room_of};
    ghost use Rattle.tp_posindex.specs.Blocked.{IsBlocked, pieces};

    ghost Value = { BlockState };

    ghost view = { λ s. record {
      blocks = pieces s.elements.items s.blocks.blocks;
      removals = s.deletes.items;
      room = min
          (min s.elements.room (vec_capacity s.deletes - vec_len s.deletes))
          (room_of s.blocks);
    } };

    ghost invariant = { λ s. IsBlocked s.elements.items s.blocks.blocks s.blocks.flags s.deletes.items s.left };
}

impl BlockSequence {
    /// How many blocks there are. Every block holds from 1 to 128 elements, and each of several at least 64.
    pub fn block_count(&self) -> usize
        ensures count { result ≡ length self.now.blocks }
        ensures sized { AreSized self.now.blocks }
    {
        self.blocks.count()
    }

    /// What the block with a number, in list order from 0, holds; `None` past the last block. It passes over four
    /// bytes for each 2,048 blocks before, and for up to 144 more.
    pub fn block(&self, i: usize) -> Option<BlockInfo>
        ensures { MatchOption result (length self.now.blocks ≤ i) (IsInfoOf self.now i) }
    {
        if i >= self.blocks.count() {
            return None;
        }
        Some(BlockInfo {
            first: self.blocks.first_of(i),
            len: self.blocks.block(i).len(),
            visible: self.blocks.visible(i),
        })
    }

    /// The number of the block, in list order from 0, that holds the element with an identifier, deleted or not; `None`
    /// where no element has it. It takes a look-up, and passes over one block.
    pub fn block_of(&self, id: &OpId) -> Option<usize>
        ensures { MatchOption result
            (IsNew (concat_blocks self.now.blocks) id.now)
            (λ i. (i < length self.now.blocks) × IsThere (block_at self.now.blocks i) id.now) }
    {
        let number = self.elements.number_of(id)?;
        Some(self.blocks.spot_of(number).block)
    }
}

impl Sequence for BlockSequence {
    ghost placed = { λ s. concat_blocks s.blocks };

    ghost removals = { λ s. s.removals };

    ghost room = { λ s. s.room };

    ghost present_at = { λ s spot k. IsAfter s.blocks spot.block spot.offset k };

    fn new(alloc: Global) -> Self {
        BlockSequence {
            elements: Elements::new(alloc),
            blocks: Blocks::new(alloc),
            deletes: Vec::new(alloc),
            left: 0,
        }
    }

    fn reserve(&mut self, n: usize) -> Result<(), AllocError> {
        self.elements.reserve(n)?;
        self.deletes.reserve(n)?;
        self.blocks.reserve(n)
    }

    fn insert(&mut self, id: OpId, after: Place, ch: char) -> Result<(), AllocError> {
        self.elements.reserve(1)?;
        self.blocks.reserve(1)?;
        let reference = self.elements.reference_of(&after);
        let spot = spot_for(self.elements.entries(), &self.blocks, &id, reference);
        self.elements.push(id, reference, ch);
        self.blocks.put(spot);
        self.left += 1;
        Ok(())
    }

    fn delete(&mut self, target: OpId, by: OpId) -> Result<(), AllocError> {
        self.deletes.push((target, by))?;
        if let Some(number) = self.elements.number_of(&target) {
            if !self.blocks.is_deleted(number) {
                self.blocks.hide(number);
                self.left -= 1;
            }
        }
        Ok(())
    }

    fn can_insert(&self, id: &OpId, after: &Place) -> bool {
        if self.contains(id) {
            return false;
        }
        match after {
            Place::Start => true,
            Place::After(reference) => reference.is_below(id) && self.contains(reference),
        }
    }

    fn contains(&self, id: &OpId) -> bool {
        self.elements.number_of(id).is_some()
    }

    fn len(&self) -> usize {
        self.left
    }

    fn char_at(&self, i: usize) -> Option<char> {
        match self.blocks.nth_visible(i) {
            Some(spot) => {
                let number = self.blocks.number_at(spot);
                Some(self.elements.entries().ch(number))
            }
            None => None,
        }
    }

    fn id_at(&self, i: usize) -> Option<OpId> {
        match self.blocks.nth_visible(i) {
            Some(spot) => {
                let number = self.blocks.number_at(spot);
                Some(self.elements.entries().id(number))
            }
            None => None,
        }
    }

    fn position(&self, id: &OpId) -> Option<usize> {
        match self.elements.number_of(id) {
            Some(number) => Some(self.blocks.visible_before(self.blocks.spot_of(number))),
            None => None,
        }
    }

    fn index(&self, id: &OpId) -> Option<usize> {
        match self.elements.number_of(id) {
            Some(number) => {
                let spot = self.blocks.spot_of(number);
                // The index of the block's end fits, and so does this one.
                let _block = self.blocks.block(spot.block);
                Some(self.blocks.first_of(spot.block) + spot.offset)
            }
            None => None,
        }
    }

    fn all(&self) -> usize {
        self.elements.len()
    }

    fn element(&self, i: usize) -> Option<Element> {
        match self.blocks.spot_at(i) {
            Some(spot) => {
                let number = self.blocks.number_at(spot);
                let e = self.elements.entries().get(number);
                Some(Element {
                    id: e.id,
                    after: e.after,
                    ch: e.ch,
                    deleted: self.blocks.is_deleted(number),
                })
            }
            None => None,
        }
    }

    fn deletes(&self) -> &[(OpId, OpId)] {
        self.deletes.as_slice()
    }

    /// A copy of each vector as it is, with room for an eighth more: some 52 bytes for each element, and 54 for each
    /// delete. The blocks are the same, and it is never `None`.
    fn try_copy(&self, alloc: Global) -> Result<Option<Self>, AllocError>
        ensures blocks { IfOk result (λ copy. IfSome copy (λ s. s.blocks ≡ self.now.blocks)) }
        ensures removals { IfOk result (λ copy. IfSome copy (λ s. s.removals ≡ self.now.removals)) }
        ensures given { IfOk result (λ copy. IsSome copy) }
    {
        let elements = self.elements.copy(alloc)?;
        let blocks = self.blocks.copy(alloc)?;
        let deletes = copy_with_room(alloc, self.deletes.as_slice())?;
        Ok(Some(BlockSequence {
            elements,
            blocks,
            deletes,
            left: self.left,
        }))
    }

    /// The next element of a walk. Only the first of a walk is looked up: then the walk goes on in the block where it
    /// is, and from there into the next.
    #[inline]
    fn next_element(&self, walk: &mut Walk) -> Option<Seen> {
        match spot_from(&self.blocks, walk) {
            Some(spot) => {
                let number = self.blocks.number_at(spot);
                *walk = Walk {
                    index: walk.index + 1,
                    spot: Some(Spot {
                        block: spot.block,
                        offset: spot.offset + 1,
                    }),
                };
                let entries = self.elements.entries();
                let deleted = self.blocks.is_deleted(number);
                Some(Seen {
                    id: entries.id(number),
                    ch: entries.ch(number),
                    deleted,
                })
            }
            None => None,
        }
    }
}

/// Where the next element of a walk is, or `None` past the end.
fn spot_from(blocks: &Blocks, walk: &Walk) -> Option<Spot>
    requires { IfSome walk.now.spot
        (λ s. IsAfter blocks.now.blocks s.block s.offset walk.now.index) }
    ensures found { IfSome result
        (λ s. (s.block < length blocks.now.blocks)
        × (s.offset < length (block_at blocks.now.blocks s.block))
        × (index_at blocks.now.blocks s.block s.offset ≡ walk.now.index)) }
    ensures none { IfNone result (length (concat_blocks blocks.now.blocks) ≤ walk.now.index) }
{
    match walk.spot {
        Some(spot) => blocks.next_from(spot),
        None => blocks.spot_at(walk.index),
    }
}

//! The numbers of elements in blocks, in the order of the text, with a flag for each that is deleted.

ghost use Rattle.std.specs.Prelude.{◌≡◌, ℕ, ◌+◌, ◌-◌, ◌^◌, ◌<◌, ◌≤◌, Bool, true, false, not, [], ◌∷◌, ◌++◌, length, take, drop, filter, insert, slice_set, slice_index_or, IfSome, IfNone, IsOk, IsTrue, IfOk, OnOk, OnErr};
ghost use Rattle.std.specs.List.{All};
ghost use Rattle.tp_list.specs.Members.{In};
ghost use Rattle.tp_posindex.specs.Layout.{concat_blocks, block_at, index_at, IsGap, StandsAt, AreSized};
ghost use Rattle.tp_posindex.specs.Kept.{AreIndexed};
ghost use Rattle.tp_posindex.specs.Laid.{room_of, flag_of, flags_of, count_visible, IsNumbered};

use crate::block::{Block, HALF, MOST};
use crate::counts::Counts;
use crate::numbers::{count_down, index_of, nth_down};
use std::alloc::{AllocError, Global};
use std::marker::Model;
use tp_list::{copy_with_room, with_room};
use tp_rga::Spot;

/// How many numbers there are at most: 4,294,967,295.
const MOST_NUMBERS: usize = 4_294_967_295;

/// Numbers in blocks. Number `k` is the one that was put in as the `k`-th, from 0.
///
/// `pool` has the blocks by their own numbers, `order` these in list order, and `index` for each where it is in the
/// order; `lens` has for each block in list order how many numbers it holds, and `visible` how many of them have their
/// flag down; `home` has for each number the block that holds it. `recent` is the spot that the latest number went to, and
/// is looked at first.
#[derive(Drop)]
pub(crate) struct Blocks {
    pool: Vec<Block>,
    order: Vec<u32>,
    index: Vec<u32>,
    lens: Counts,
    visible: Counts,
    home: Vec<u32>,
    deleted: Vec<bool>,
    recent: Spot,
}

impl Model for Blocks {
    ghost use Rattle.std.specs.Prelude.{◌-◌, min, length};
    ghost use Rattle.std.specs.Vec.{vec_len, vec_capacity};
    ghost use Rattle.tp_posindex.specs.Laid.{Layout, PoolInvariant, blocks_in_order};
    ghost use Rattle.tp_posindex.specs.Kept.{BlocksInvariant};

    ghost Value = { Layout };

    ghost view = { λ b. record {
      blocks = blocks_in_order b.pool.items b.order.items;
      flags = b.deleted.items;
      spare = min
          (vec_capacity b.pool - vec_len b.pool)
          (min
          (min (vec_capacity b.order - vec_len b.order) (vec_capacity b.index - vec_len b.index))
          (min b.lens.room b.visible.room));
      slots = min
          (4294967295 - vec_len b.deleted)
          (min (vec_capacity b.home - vec_len b.home) (vec_capacity b.deleted - vec_len b.deleted));
    } };

    ghost invariant = { λ b.
        BlocksInvariant b.pool.items b.order.items b.index.items b.lens.counts b.visible.counts b.home.items b.deleted.items };
}

impl Blocks {
    /// No blocks. It takes no memory.
    pub fn new(alloc: Global) -> Blocks
        ensures blocks { result.blocks ≡ [] }
        ensures flags { result.flags ≡ [] }
    {
        Blocks {
            pool: Vec::new(alloc),
            order: Vec::new(alloc),
            index: Vec::new(alloc),
            lens: Counts::new(alloc),
            visible: Counts::new(alloc),
            home: Vec::new(alloc),
            deleted: Vec::new(alloc),
            recent: Spot {
                block: 0,
                offset: 0,
            },
        }
    }

    /// The same numbers in the same blocks, with the same flags. Where memory is short it is an `Err`.
    pub fn copy(&self, alloc: Global) -> Result<Blocks, AllocError>
        ensures blocks { IfOk result (λ copy. copy.blocks ≡ self.now.blocks) }
        ensures flags { IfOk result (λ copy. copy.flags ≡ self.now.flags) }
    {
        let pool = copies(alloc, &self.pool)?;
        let order = copy_with_room(alloc, self.order.as_slice())?;
        let index = copy_with_room(alloc, self.index.as_slice())?;
        let lens = self.lens.copy(alloc)?;
        let visible = self.visible.copy(alloc)?;
        let home = copy_with_room(alloc, self.home.as_slice())?;
        let deleted = copy_with_room(alloc, self.deleted.as_slice())?;
        Ok(Blocks {
            pool,
            order,
            index,
            lens,
            visible,
            home,
            deleted,
            recent: self.recent,
        })
    }

    /// Makes room for `n` more numbers, wherever they go. Where memory is short, or there would be more than
    /// 4,294,967,295, it is an `Err`. The blocks and flags stay.
    pub fn reserve(&mut self, n: usize) -> Result<(), AllocError>
        ensures blocks { self.new.blocks ≡ self.old.blocks }
        ensures flags { self.new.flags ≡ self.old.flags }
        ensures ok { OnOk result (n ≤ room_of self.new) }
        ensures succeeds { n ≤ room_of self.old → IsOk result }
        ensures room { room_of self.old ≤ room_of self.new }
    {
        let numbers = self.deleted.len();
        let blocks = self.order.len();
        if n > MOST_NUMBERS.saturating_sub(numbers) {
            return Err(AllocError);
        }
        self.home.reserve(n)?;
        self.deleted.reserve(n)?;
        let opened = n.min((numbers + n).div_ceil(HALF).saturating_sub(blocks));
        self.reserve_blocks(opened)?;
        Ok(())
    }

    /// Makes room for `n` more blocks.
    fn reserve_blocks(&mut self, n: usize) -> Result<(), AllocError>
        ensures blocks { self.new.blocks ≡ self.old.blocks }
        ensures flags { self.new.flags ≡ self.old.flags }
        ensures ok { OnOk result (n ≤ self.new.spare) }
        ensures succeeds { n ≤ self.old.spare → IsOk result }
        ensures spare { self.old.spare ≤ self.new.spare }
        ensures slots { self.new.slots ≡ self.old.slots }
    {
        self.pool.reserve(n)?;
        self.order.reserve(n)?;
        self.index.reserve(n)?;
        self.lens.reserve(n)?;
        self.visible.reserve(n)
    }

    /// How many blocks there are. Every block holds from 1 to 128 numbers, and each of several at least 64.
    pub fn count(&self) -> usize
        ensures count { result ≡ length self.now.blocks }
        ensures sized { AreSized self.now.blocks }
        ensures numbered { IsNumbered (length self.now.flags) (concat_blocks self.now.blocks) }
    {
        self.order.len()
    }

    /// The numbers in a block, in list order.
    pub fn block(&self, block: usize) -> &[u32]
        requires { block < length self.now.blocks }
        ensures value { result.now ≡ block_at self.now.blocks block }
        ensures few { length result.now ≤ MOST }
        ensures below { All (λ k. k < length self.now.flags) result.now }
        ensures fits { index_at self.now.blocks block (length result.now) < 2 ^ 64 }
    {
        let number = self.order[block] as usize;
        self.pool[number].numbers()
    }

    /// How many flags are down in a block. It is kept.
    pub fn visible(&self, block: usize) -> usize
        requires { block < length self.now.blocks }
        ensures { result ≡ count_visible self.now.flags (block_at self.now.blocks block) }
    {
        self.visible.get(block)
    }

    /// Whether a number's flag is up.
    pub fn is_deleted(&self, number: usize) -> bool
        requires { number < length self.now.flags }
        ensures { result ≡ flag_of self.now.flags number }
    {
        self.deleted[number]
    }

    /// The number at a spot.
    pub fn number_at(&self, spot: Spot) -> usize
        requires block { spot.block < length self.now.blocks }
        requires offset { spot.offset < length (block_at self.now.blocks spot.block) }
        ensures number { result ≡ slice_index_or
            (block_at self.now.blocks spot.block) spot.offset 0 }
        ensures below { result < length self.now.flags }
        ensures fits { index_at self.now.blocks spot.block spot.offset + 1 < 2 ^ 64 }
    {
        self.block(spot.block)[spot.offset] as usize
    }

    /// Where a number is. It passes over one block, or none where it is the latest number.
    pub fn spot_of(&self, number: usize) -> Spot
        requires { number < length self.now.flags }
        ensures at { StandsAt self.now.blocks result.block result.offset number }
        ensures offset { result.offset < MOST }
    {
        if self.is_at(self.recent, number) {
            return self.recent;
        }
        let home = self.home[number] as usize;
        match index_of(self.pool[home].numbers(), number) {
            Some(offset) => Spot {
                block: self.index[home] as usize,
                offset,
            },
            None => unreachable!(),
        }
    }

    /// Whether a number is at a spot.
    fn is_at(&self, spot: Spot, number: usize) -> bool
        ensures at { IsTrue result
            → StandsAt self.now.blocks spot.block spot.offset number }
        ensures offset { IsTrue result → spot.offset < MOST }
    {
        if spot.block >= self.order.len() {
            return false;
        }
        match self.block(spot.block).get(spot.offset) {
            Some(other) => *other as usize == number,
            None => false,
        }
    }

    /// The index in the whole list of the first number of a block. It passes over four bytes for each 2,048 blocks before,
    /// and for up to 144 more.
    pub fn first_of(&self, block: usize) -> usize
        requires { block < length self.now.blocks }
        ensures { result ≡ index_at self.now.blocks block 0 }
    {
        self.lens.sum_before(block)
    }

    /// Where the number at an index of the whole list is, or `None` past its end. It passes over four bytes for each
    /// 2,048 blocks before, and for up to 144 more.
    #[inline(never)]
    pub fn spot_at(&self, index: usize) -> Option<Spot>
        ensures found { IfSome result
            (λ s. (s.block < length self.now.blocks)
            × (s.offset < length (block_at self.now.blocks s.block))
            × (index_at self.now.blocks s.block s.offset ≡ index)) }
        ensures none { IfNone result (length (concat_blocks self.now.blocks) ≤ index) }
    {
        let (block, offset) = self.lens.find(index)?;
        Some(Spot { block, offset })
    }

    /// Where the next number is from a spot on: there, or at a block's end at the start of the next block; `None`
    /// after all numbers.
    pub fn next_from(&self, spot: Spot) -> Option<Spot>
        requires block { spot.block < length self.now.blocks }
        requires offset { spot.offset ≤ length (block_at self.now.blocks spot.block) }
        ensures found { IfSome result
            (λ s. (s.block < length self.now.blocks)
            × (s.offset < length (block_at self.now.blocks s.block))
            × (index_at self.now.blocks s.block s.offset
            ≡ index_at self.now.blocks spot.block spot.offset)) }
        ensures none { IfNone result
            (length (concat_blocks self.now.blocks) ≤ index_at self.now.blocks spot.block spot.offset) }
    {
        let count = self.count();
        if spot.offset < self.block(spot.block).len() {
            return Some(spot);
        }
        let block = spot.block + 1;
        if block < count {
            Some(Spot { block, offset: 0 })
        } else {
            None
        }
    }

    /// Where the number is that has its flag down, with `i` others before it that have theirs down; `None` where fewer
    /// have. It passes over four bytes for each 2,048 blocks before, and for up to 144 more, and over one block.
    pub fn nth_visible(&self, i: usize) -> Option<Spot>
        ensures found { IfSome result
            (λ s. (s.block < length self.now.blocks)
            × (s.offset < length (block_at self.now.blocks s.block))
            × (flag_of self.now.flags (slice_index_or (block_at self.now.blocks s.block) s.offset 0)
            ≡ false)
            × (count_visible self.now.flags
            (take (index_at self.now.blocks s.block s.offset) (concat_blocks self.now.blocks)) ≡ i)) }
        ensures none { IfNone result (count_visible self.now.flags (concat_blocks self.now.blocks) ≤ i) }
    {
        let (block, left) = self.visible.find(i)?;
        match nth_down(self.block(block), &self.deleted, left) {
            Some(offset) => Some(Spot { block, offset }),
            None => unreachable!(),
        }
    }

    /// How many flags are down before a spot. It passes over four bytes for each 2,048 blocks before, and for up to
    /// 144 more, and over one block.
    pub fn visible_before(&self, spot: Spot) -> usize
        requires block { spot.block < length self.now.blocks }
        requires offset { spot.offset ≤ length (block_at self.now.blocks spot.block) }
        ensures { result ≡ count_visible self.now.flags
            (take (index_at self.now.blocks spot.block spot.offset) (concat_blocks self.now.blocks)) }
    {
        let numbers = self.block(spot.block);
        self.visible.sum_before(spot.block) + count_down(&numbers[..spot.offset], &self.deleted)
    }

    /// The spot after all numbers.
    pub fn end(&self) -> Spot
        ensures gap { IsGap self.now.blocks result.block result.offset }
        ensures end { index_at self.now.blocks result.block result.offset
            ≡ length (concat_blocks self.now.blocks) }
    {
        let count = self.order.len();
        if count == 0 {
            return Spot {
                block: 0,
                offset: 0,
            };
        }
        Spot {
            block: count - 1,
            offset: self.block(count - 1).len(),
        }
    }

    /// Puts the next number in at a spot, with its flag down. A full block is split into two of 64 first. It takes no
    /// memory.
    pub fn put(&mut self, spot: Spot)
        requires room { 0 < room_of self.old }
        requires gap { IsGap self.old.blocks spot.block spot.offset }
        ensures joined { concat_blocks self.new.blocks
            ≡ insert (concat_blocks self.old.blocks) (index_at self.old.blocks spot.block spot.offset)
            (length self.old.flags) }
        ensures flags { self.new.flags ≡ self.old.flags ++ false ∷ [] }
        ensures room { room_of self.old ≤ room_of self.new + 1 }
    {
        if self.order.is_empty() {
            self.put_first();
            return;
        }
        if self.block(spot.block).len() < MOST {
            self.put_in(spot);
            return;
        }
        self.split(spot.block);
        if spot.offset <= HALF {
            self.put_in(spot);
        } else {
            self.put_in(Spot {
                block: spot.block + 1,
                offset: spot.offset - HALF,
            });
        }
    }

    /// Puts the next number in at a spot of a block that isn't full.
    fn put_in(&mut self, spot: Spot)
        requires block { spot.block < length self.old.blocks }
        requires offset { spot.offset ≤ length (block_at self.old.blocks spot.block) }
        requires few { length (block_at self.old.blocks spot.block) < MOST }
        requires slots { 0 < self.old.slots }
        ensures blocks { self.new.blocks
            ≡ slice_set self.old.blocks spot.block
            (insert (block_at self.old.blocks spot.block) spot.offset (length self.old.flags)) }
        ensures flags { self.new.flags ≡ self.old.flags ++ false ∷ [] }
        ensures spare { self.new.spare ≡ self.old.spare }
        ensures slots { self.old.slots ≤ self.new.slots + 1 }
    {
        let number = self.deleted.len() as u32;
        let home = self.order[spot.block];
        let block = &mut self.pool[home as usize];
        block.put(spot.offset, number);
        self.lens.raise(spot.block);
        self.visible.raise(spot.block);
        self.recent = spot;
        if self.home.push(home).is_err() || self.deleted.push(false).is_err() {
            unreachable!()
        }
    }

    /// Splits a full block into two of 64, which comes at most once in 64 inserts. Numbers of the blocks after it move,
    /// or are written anew, and the sums from its group on are made anew.
    fn split(&mut self, index: usize)
        requires block { index < length self.old.blocks }
        requires full { length (block_at self.old.blocks index) ≡ MOST }
        requires spare { 0 < self.old.spare }
        requires slots { 0 < self.old.slots }
        ensures blocks { self.new.blocks
            ≡ insert (slice_set self.old.blocks index (take HALF (block_at self.old.blocks index)))
            (index + 1)
            (drop HALF (block_at self.old.blocks index)) }
        ensures flags { self.new.flags ≡ self.old.flags }
        ensures spare { self.old.spare ≤ self.new.spare + 1 }
        ensures slots { self.new.slots ≡ self.old.slots }
    {
        let prefix = self.order[index];
        let back = self.order.len() as u32;
        let block = &mut self.pool[prefix as usize];
        let half = block.split();
        let count = count_down(half.numbers(), &self.deleted) as u32;
        rename(&mut self.home, half.numbers(), back);
        self.lens.split(index, HALF as u32);
        self.visible.split(index, count);
        if self.pool.push(half).is_err()
            || self.order.insert(index + 1, back).is_err()
            || self.index.push(back).is_err()
        {
            unreachable!()
        }
        renumber(&mut self.index, &self.order, index + 1);
    }

    /// Opens the first block, with the first number in it.
    fn put_first(&mut self)
        requires blocks { self.old.blocks ≡ [] }
        requires spare { 0 < self.old.spare }
        requires slots { 0 < self.old.slots }
        ensures blocks { self.new.blocks ≡ (0 ∷ []) ∷ [] }
        ensures first { self.old.flags ≡ [] }
        ensures flags { self.new.flags ≡ false ∷ [] }
        ensures spare { self.old.spare ≤ self.new.spare + 1 }
        ensures slots { self.old.slots ≤ self.new.slots + 1 }
    {
        let block = Block::start(0);
        self.lens.insert(0, 1);
        self.visible.insert(0, 1);
        if self.pool.push(block).is_err()
            || self.order.push(0).is_err()
            || self.index.push(0).is_err()
            || self.home.push(0).is_err()
            || self.deleted.push(false).is_err()
        {
            unreachable!()
        }
    }

    /// Raises a number's flag.
    pub fn hide(&mut self, number: usize)
        requires number { number < length self.old.flags }
        requires down { flag_of self.old.flags number ≡ false }
        ensures blocks { self.new.blocks ≡ self.old.blocks }
        ensures flags { self.new.flags ≡ slice_set self.old.flags number true }
        ensures room { room_of self.new ≡ room_of self.old }
    {
        let spot = self.spot_of(number);
        self.deleted[number] = true;
        self.visible.lower(spot.block, 1);
    }
}

/// Blocks with the same numbers, in their order, with room for more.
fn copies(alloc: Global, pool: &[Block]) -> Result<Vec<Block>, AllocError>
    ensures { IfOk result (λ copy. copy.items ≡ pool.now) }
{
    let mut copy = Vec::with_capacity(alloc, with_room(pool.len()))?;
    for block in pool {
        copy.push(block.copy())?;
    }
    Ok(copy)
}

/// Says of each number that its home is a block.
fn rename(home: &mut [u32], numbers: &[u32], block: u32)
    requires { All (λ k. k < length home.old) numbers.now }
    ensures renamed { (k : ℕ) → In k numbers.now → slice_index_or home.new k 0 ≡ block }
    ensures others { (k : ℕ) → (In k numbers.now → ⊥)
        → slice_index_or home.new k 0 ≡ slice_index_or home.old k 0 }
{
    for number in numbers {
        home[*number as usize] = block;
    }
}

/// Says of each block from an index of the order on where it is in the order.
fn renumber(index: &mut [u32], order: &[u32], from: usize)
    requires few { length order.now < 2 ^ 32 }
    requires from { from ≤ length order.now }
    requires ordered { IsNumbered (length index.old) order.now }
    requires before { (p : ℕ) → p < from
        → slice_index_or index.old (slice_index_or order.now p 0) 0 ≡ p }
    ensures { AreIndexed order.now index.new }
{
    for p in from..order.len() {
        index[order[p] as usize] = p as u32;
    }
}

//! Counts in an order, with sums of groups of them.

ghost use Rattle.std.specs.Prelude.{◌≡◌, ◌+◌, ◌-◌, ◌*◌, ◌^◌, ◌<◌, ◌≤◌, [], length, take, sum, insert, slice_set, slice_index_or, vec_capacity, IsOk, OnOk, IfOk, IfSome, IfNone};
ghost use Rattle.tp_posindex.specs.CountsState.{AreSums, IsGrouped, split_at};

use crate::numbers::{nth_counted, total};
use std::alloc::{AllocError, Global};
use std::marker::Model;
use tp_list::copy_with_room;

/// How many counts a group has.
const GROUP: usize = 128;

/// How many groups a range has.
const RANGE: usize = 16;

/// Counts in an order; together they are less than 4,294,967,296.
///
/// The sum of each group of 128 counts that follow one another is kept, and that of each range of 16 groups. So what the
/// first counts are together, and where the n-th of what is counted falls, take a pass over four bytes for each range
/// before, over one range and over one group. A count that is put in moves those after it, and makes the sums from its
/// group and its range on anew.
#[derive(Drop)]
pub(crate) struct Counts {
    counts: Vec<u32>,
    sums: Vec<u32>,
    range_sums: Vec<u32>,
}

impl Model for Counts {
    ghost use Rattle.std.specs.Prelude.{◌-◌, ◌*◌, min};
    ghost use Rattle.std.specs.Vec.{vec_len, vec_capacity};
    ghost use Rattle.tp_posindex.specs.CountsState.{CountsState, IsSummed};

    ghost Value = { CountsState };

    ghost view = { λ c. record {
      counts = c.counts.items;
      room = min
          (vec_capacity c.counts - vec_len c.counts)
          (min (128 * vec_capacity c.sums - vec_len c.counts) (2048 * vec_capacity c.range_sums - vec_len c.counts));
    } };

    ghost invariant = { λ c. IsSummed c.counts.items c.sums.items c.range_sums.items };
}

impl Counts {
    /// No counts. It takes no memory.
    pub fn new(alloc: Global) -> Counts
        ensures { result.counts ≡ [] }
    {
        Counts {
            counts: Vec::new(alloc),
            sums: Vec::new(alloc),
            range_sums: Vec::new(alloc),
        }
    }

    /// The same counts, with the sums as they are. Where memory is short it is an `Err`.
    pub fn copy(&self, alloc: Global) -> Result<Counts, AllocError>
        ensures { IfOk result (λ copy. copy.counts ≡ self.now.counts) }
    {
        let counts = copy_with_room(alloc, self.counts.as_slice())?;
        let sums = copy_with_room(alloc, self.sums.as_slice())?;
        let range_sums = copy_with_room(alloc, self.range_sums.as_slice())?;
        Ok(Counts {
            counts,
            sums,
            range_sums,
        })
    }

    /// Makes room for `n` more counts. Where memory is short it is an `Err`, and the counts stay.
    pub fn reserve(&mut self, n: usize) -> Result<(), AllocError>
        ensures counts { self.new.counts ≡ self.old.counts }
        ensures ok { OnOk result (n ≤ self.new.room) }
        ensures succeeds { n ≤ self.old.room → IsOk result }
        ensures room { self.old.room ≤ self.new.room }
    {
        self.counts.reserve(n)?;
        let groups = self.counts.len().saturating_add(n).div_ceil(GROUP);
        self.sums.reserve(groups.saturating_sub(self.sums.len()))?;
        let ranges = groups.div_ceil(RANGE);
        self.range_sums
            .reserve(ranges.saturating_sub(self.range_sums.len()))
    }

    /// The count at an index.
    pub fn get(&self, index: usize) -> usize
        requires { index < length self.now.counts }
        ensures { result ≡ slice_index_or self.now.counts index 0 }
    {
        self.counts[index] as usize
    }

    /// What the counts before an index are together.
    pub fn sum_before(&self, index: usize) -> usize
        requires { index ≤ length self.now.counts }
        ensures { result ≡ sum (take index self.now.counts) }
    {
        let group = index / GROUP;
        let range = group / RANGE;
        total(&self.range_sums[..range])
            + total(&self.sums[range * RANGE..group])
            + total(&self.counts[group * GROUP..index])
    }

    /// The index of the count in which the `n`-th of what is counted falls, from 0, and how many of it come before in
    /// that count; `None` where less is counted.
    pub fn find(&self, n: usize) -> Option<(usize, usize)>
        ensures found { IfSome result
            (λ r. (r.0 < length self.now.counts)
            × (sum (take r.0 self.now.counts) + r.1 ≡ n)
            × (r.1 < slice_index_or self.now.counts r.0 0)) }
        ensures none { IfNone result (sum self.now.counts ≤ n) }
    {
        let (range, left) = nth_counted(&self.range_sums, 0, n)?;
        let (group, left) = nth_counted(&self.sums, range * RANGE, left)?;
        nth_counted(&self.counts, group * GROUP, left)
    }

    /// Adds one to a count.
    pub fn raise(&mut self, index: usize)
        requires index { index < length self.old.counts }
        requires fits { sum self.old.counts + 1 < 2 ^ 32 }
        ensures counts { self.new.counts
            ≡ slice_set self.old.counts index (slice_index_or self.old.counts index 0 + 1) }
        ensures room { self.new.room ≡ self.old.room }
    {
        let group = index / GROUP;
        self.counts[index] += 1;
        self.sums[group] += 1;
        self.range_sums[group / RANGE] += 1;
    }

    /// Takes something off a count.
    pub fn lower(&mut self, index: usize, by: u32)
        requires index { index < length self.old.counts }
        requires enough { by ≤ slice_index_or self.old.counts index 0 }
        ensures counts { self.new.counts
            ≡ slice_set self.old.counts index (slice_index_or self.old.counts index 0 - by) }
        ensures room { self.new.room ≡ self.old.room }
    {
        let group = index / GROUP;
        self.counts[index] -= by;
        self.sums[group] -= by;
        self.range_sums[group / RANGE] -= by;
    }

    /// Puts a count in at an index. It takes no memory.
    pub fn insert(&mut self, index: usize, count: u32)
        requires index { index ≤ length self.old.counts }
        requires room { 0 < self.old.room }
        requires fits { sum self.old.counts + count < 2 ^ 32 }
        ensures counts { self.new.counts ≡ insert self.old.counts index count }
        ensures room { self.old.room ≤ self.new.room + 1 }
    {
        if self.counts.insert(index, count).is_err() {
            unreachable!()
        }
        let group = index / GROUP;
        self.sums.truncate(group);
        sum_up(&self.counts, GROUP, &mut self.sums);
        self.range_sums.truncate(group / RANGE);
        sum_up(&self.sums, RANGE, &mut self.range_sums);
    }

    /// Takes something off a count, and puts it in as the next count. It takes no memory.
    pub fn split(&mut self, index: usize, back: u32)
        requires index { index < length self.old.counts }
        requires enough { back ≤ slice_index_or self.old.counts index 0 }
        requires room { 0 < self.old.room }
        ensures counts { self.new.counts ≡ split_at self.old.counts index back }
        ensures room { self.old.room ≤ self.new.room + 1 }
    {
        prove!(index < self.counts.len());
        self.lower(index, back);
        self.insert(index + 1, back);
    }
}

/// Adds the sums of the groups of `size` counts that have none. It takes no memory.
fn sum_up(counts: &[u32], size: usize, sums: &mut Vec<u32>)
    requires size { 0 < size }
    requires fits { sum counts.now < 2 ^ 32 }
    requires few { size * length sums.old.items < length counts.now + size }
    requires room { length counts.now ≤ size * vec_capacity sums.old }
    requires begun { AreSums size counts.now sums.old.items }
    ensures grouped { IsGrouped size counts.now sums.new.items }
    ensures capacity { vec_capacity sums.old ≤ vec_capacity sums.new }
{
    let groups = counts.len().div_ceil(size);
    'groups: while sums.len() < groups {
        let from = sums.len() * size;
        let whole = size.min(counts.len() - from);
        let sum = total(&counts[from..from + whole]) as u32;
        if sums.push(sum).is_err() {
            unreachable!()
        }
    }
}

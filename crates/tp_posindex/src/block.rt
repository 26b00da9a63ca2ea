//! One block: the numbers of up to 128 elements in sequence.

ghost use Rattle.std.specs.Prelude.{◌≡◌, ◌<◌, ◌≤◌, [], ◌∷◌, length, take, drop, insert};

use arrayvec::ArrayVec;
use std::marker::Model;

/// How many elements a block holds at most.
pub(crate) const MOST: usize = 128;

/// How many elements each half of a split block holds, and so each of several blocks at least.
pub(crate) const HALF: usize = 64;

/// The numbers of up to 128 elements, in list order. They lie in the block itself, so no change of it takes memory.
#[derive(Drop)]
pub(crate) struct Block {
    numbers: ArrayVec<u32, 128>,
}

impl Model for Block {
    ghost use Rattle.std.specs.Prelude.{List, ℕ};

    ghost Value = { List ℕ };

    ghost view = { λ b. b.numbers.items };
}

impl Block {
    /// A block with one number.
    pub fn start(number: u32) -> Block
        ensures { result ≡ number ∷ [] }
    {
        let mut numbers = ArrayVec::new();
        numbers.push(number);
        Block { numbers }
    }

    /// The numbers, in list order.
    pub fn numbers(&self) -> &[u32]
        ensures value { result.now ≡ self.now }
        ensures few { length self.now ≤ MOST }
    {
        self.numbers.as_slice()
    }

    /// A block with the same numbers.
    pub fn copy(&self) -> Block
        ensures { result ≡ self.now }
    {
        let mut numbers = ArrayVec::new();
        if numbers
            .try_extend_from_slice(self.numbers.as_slice())
            .is_err()
        {
            unreachable!()
        }
        Block { numbers }
    }

    /// Puts a number in at an offset. It moves those after it.
    pub fn put(&mut self, offset: usize, number: u32)
        requires offset { offset ≤ length self.old }
        requires room { length self.old < MOST }
        ensures { self.new ≡ insert self.old offset number }
    {
        self.numbers.insert(offset, number);
    }

    /// Moves the second half of a full block into a block of its own.
    pub fn split(&mut self) -> Block
        requires { length self.old ≡ MOST }
        ensures prefix { self.new ≡ take HALF self.old }
        ensures back { result ≡ drop HALF self.old }
    {
        let mut back = ArrayVec::new();
        if back
            .try_extend_from_slice(&self.numbers.as_slice()[HALF..])
            .is_err()
        {
            unreachable!()
        }
        self.numbers.truncate(HALF);
        Block { numbers: back }
    }
}

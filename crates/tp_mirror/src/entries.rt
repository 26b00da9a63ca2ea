//! Lists of the state file.

ghost use Rattle.std.specs.Prelude.{◌≡◌, ◌<◌, ◌++◌, ◌∷◌, [], length, slice_set, remove, filter, OnOk};
ghost use Rattle.tp_mirror.specs.Generations.{stays_known};

use crate::generations::keep_needed;
use crate::known::Known;
use crate::state::Moved;
use std::alloc::{AllocFailed, Global};
use std::marker::Model;

/// A list that grows, as contracts see it.
#[derive(Drop)]
pub struct Entries<T> {
    items: Vec<T>,
}

impl<T> Model for Entries<T> {
    ghost use Rattle.std.specs.Prelude.{List};

    ghost Value = { List T };

    ghost view = { λ e. e.items.items };
}

impl<T> Entries<T> {
    /// The elements of a `Vec`, in order. No memory.
    pub fn new(items: Vec<T>) -> Entries<T>
        ensures { result ≡ items.items }
    {
        Entries { items }
    }

    /// Where its memory is from.
    pub fn alloc(&self) -> Global {
        *self.items.allocator()
    }

    /// The elements, in order.
    pub fn as_slice(&self) -> &[T]
        ensures { result.now ≡ self.now }
    {
        self.items.as_slice()
    }

    /// How many elements there are.
    pub fn len(&self) -> usize
        ensures { result ≡ length self.now }
    {
        self.items.len()
    }

    /// Puts an element at the end.
    pub fn push(&mut self, item: T) -> Result<(), AllocFailed<T>>
        ensures { OnOk result (self.new ≡ self.old ++ item ∷ []) }
    {
        self.items.push(item)
    }

    /// Takes an element out. Those after it move up.
    pub fn remove(&mut self, at: usize) -> T
        requires { at < length self.old }
        ensures { self.new ≡ remove self.old at }
    {
        self.items.remove(at)
    }
}

impl<T: Drop> Entries<T> {
    /// Puts an element in the place of another.
    pub fn set(&mut self, at: usize, item: T)
        requires { at < length self.old }
        ensures { self.new ≡ slice_set self.old at item }
    {
        self.items[at] = item;
    }
}

impl Entries<Known> {
    /// Forgets the texts that aren't needed, where this many generations were begun. One pass over the files that were
    /// moved away for each text.
    pub(crate) fn forget_unneeded(&mut self, begun: u64, moved: &[Moved])
        ensures { self.new ≡ filter (stays_known begun moved.now) self.old }
    {
        keep_needed(&mut self.items, begun, moved);
    }
}

//! Entries in two columns: their characters, and rows of what else they have.

ghost use Rattle.std.specs.Prelude.{◌≡◌, ◌+◌, ◌<◌, ◌≤◌, [], ◌∷◌, ◌++◌, length, IsOk, OnOk, IfOk};
ghost use Rattle.tp_elements.specs.Entered.{entry_at, IsNumberBelow};
ghost use Rattle.tp_elements.specs.Columns.{reference_of};

use crate::entry::{Entry, Reference};
use std::alloc::{AllocError, Global};
use std::marker::Model;
use tp_list::copy_with_room;

/// What an entry has beside its character, in 16 bytes: its counter, its actor's index in a table, and as `after` 0 for
/// the start, or one more than the number of the element that it refers to.
#[derive(Clone, Copy)]
pub(crate) struct Row {
    pub counter: u64,
    pub author: u32,
    pub after: u32,
}

/// Entries, of 20 bytes each. The characters are in a vector of their own, so that what reads them alone passes over
/// four bytes an entry.
#[derive(Drop)]
pub(crate) struct Columns {
    rows: Vec<Row>,
    chars: Vec<char>,
}

impl Model for Columns {
    ghost use Rattle.std.specs.Prelude.{◌≡◌, ◌-◌, min, length};
    ghost use Rattle.std.specs.Vec.{vec_len, vec_capacity};
    ghost use Rattle.tp_elements.specs.Columns.{ColumnsState, entries_of};

    ghost Value = { ColumnsState };

    ghost view = { λ c. record {
      items = entries_of c.rows.items c.chars.items;
      room = min (vec_capacity c.rows - vec_len c.rows) (vec_capacity c.chars - vec_len c.chars);
    } };

    ghost invariant = { λ c. length c.chars.items ≡ length c.rows.items };
}

impl Columns {
    /// No entries. It takes no memory.
    pub fn new(alloc: Global) -> Columns
        ensures { result.items ≡ [] }
    {
        Columns {
            rows: Vec::new(alloc),
            chars: Vec::new(alloc),
        }
    }

    /// The same entries. Where memory is short it is an `Err`.
    pub fn copy(&self, alloc: Global) -> Result<Columns, AllocError>
        ensures { IfOk result (λ copy. copy.items ≡ self.now.items) }
    {
        let rows = copy_with_room(alloc, self.rows.as_slice())?;
        let chars = copy_with_room(alloc, self.chars.as_slice())?;
        Ok(Columns { rows, chars })
    }

    /// Makes room for `n` more entries. Where memory is short it is an `Err`, and the entries stay.
    pub fn reserve(&mut self, n: usize) -> Result<(), AllocError>
        ensures items { self.new.items ≡ self.old.items }
        ensures ok { OnOk result (n ≤ self.new.room) }
        ensures succeeds { n ≤ self.old.room → IsOk result }
        ensures room { self.old.room ≤ self.new.room }
    {
        self.rows.reserve(n)?;
        self.chars.reserve(n)
    }

    /// How many there are.
    pub fn len(&self) -> usize
        ensures { result ≡ length self.now.items }
    {
        self.rows.len()
    }

    /// An entry's counter.
    pub fn counter(&self, number: usize) -> u64
        requires { number < length self.now.items }
        ensures { result ≡ (entry_at self.now.items number).counter }
    {
        self.rows[number].counter
    }

    /// The index of an entry's actor.
    pub fn author(&self, number: usize) -> u32
        requires { number < length self.now.items }
        ensures { result ≡ (entry_at self.now.items number).author }
    {
        self.rows[number].author
    }

    /// An entry's reference.
    pub fn after(&self, number: usize) -> Reference
        requires { number < length self.now.items }
        ensures { result ≡ (entry_at self.now.items number).after }
    {
        reference_kept_as(self.rows[number].after)
    }

    /// An entry's character. It reads no row.
    pub fn ch(&self, number: usize) -> char
        requires { number < length self.now.items }
        ensures { result ≡ (entry_at self.now.items number).ch }
    {
        self.chars[number]
    }

    /// Puts an entry at the end. It takes no memory.
    pub fn push(&mut self, entry: Entry)
        requires room { 0 < self.old.room }
        requires after { IsNumberBelow 4294967295 entry.after }
        ensures items { self.new.items ≡ self.old.items ++ entry ∷ [] }
        ensures room { self.old.room ≤ self.new.room + 1 }
    {
        let row = Row {
            counter: entry.counter,
            author: entry.author,
            after: kept_as(entry.after),
        };
        if self.rows.push(row).is_err() || self.chars.push(entry.ch).is_err() {
            unreachable!()
        }
    }
}

/// A reference as a row keeps it: 0 for the start, so one more than the number of an element.
fn kept_as(reference: Reference) -> u32
    requires { IsNumberBelow 4294967295 reference }
    ensures { reference_of result ≡ reference }
{
    match reference {
        Reference::Start => 0,
        Reference::After(number) => number + 1,
    }
}

/// The reference that a row keeps.
fn reference_kept_as(after: u32) -> Reference
    ensures { result ≡ reference_of after }
{
    if after == 0 {
        Reference::Start
    } else {
        Reference::After(after - 1)
    }
}

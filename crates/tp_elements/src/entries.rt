//! The elements by number, as entries of 20 bytes.

ghost use Rattle.std.specs.Prelude.{◌≡◌, ◌+◌, ◌-◌, ◌^◌, ◌<◌, ◌≤◌, [], ◌∷◌, ◌++◌, length, position, vec_len, vec_capacity, IsOk, OnOk, IfOk, IfSome};
ghost use Rattle.tp_opid.specs.Insert.{Insert};
ghost use Rattle.tp_opid.specs.Same.{id_eq};
ghost use Rattle.tp_elements.specs.Came.{element_at};
ghost use Rattle.tp_elements.specs.Entered.{IsNumberBelow, place_of_reference};
ghost use Rattle.tp_elements.specs.Indexed.{actor_of_element, counter_of_element};

use crate::columns::Columns;
use crate::entry::{Entry, Reference};
use std::alloc::{AllocError, Global};
use std::marker::Model;
use tp_list::copy_with_room;
use tp_opid::{Actor, OpId, Place};
use tp_rga::Insertion;

/// How many elements there are at most: 4,294,967,295.
const MOST_ENTRIES: usize = 4_294_967_295;

/// The elements in the order in which they came, an entry of 20 bytes each: the number of an element is how many came
/// before it.
///
/// An entry names its actor by an index of `actors`, and its reference by the number of the element.
#[derive(Drop)]
pub struct Entries {
    columns: Columns,
    actors: Vec<Actor>,
}

impl Model for Entries {
    ghost use Rattle.std.specs.Prelude.{◌-◌, length, min};
    ghost use Rattle.std.specs.Vec.{vec_len, vec_capacity};
    ghost use Rattle.tp_elements.specs.Came.{Came};
    ghost use Rattle.tp_elements.specs.Entered.{AreEntered, inserts_of_entries};

    ghost Value = { Came };

    ghost view = { λ e. record {
      items = inserts_of_entries e.columns.items e.actors.items;
      room = min
          (min (4294967295 - length e.columns.items) e.columns.room)
          (vec_capacity e.actors - vec_len e.actors);
    } };

    ghost invariant = { λ e. AreEntered e.columns.items e.actors.items };
}

impl Entries {
    /// No elements. It takes no memory.
    pub(crate) fn new(alloc: Global) -> Entries
        ensures { result.items ≡ [] }
    {
        Entries {
            columns: Columns::new(alloc),
            actors: Vec::new(alloc),
        }
    }

    /// The same elements. Where memory is short it is an `Err`.
    pub(crate) fn copy(&self, alloc: Global) -> Result<Entries, AllocError>
        ensures { IfOk result (λ copy. copy.items ≡ self.now.items) }
    {
        let columns = self.columns.copy(alloc)?;
        let actors = copy_with_room(alloc, self.actors.as_slice())?;
        Ok(Entries { columns, actors })
    }

    /// Makes room for `n` more elements, of whatever actors. Where memory is short, or there would be more than
    /// 4,294,967,295, it is an `Err`.
    pub(crate) fn reserve(&mut self, n: usize) -> Result<(), AllocError>
        ensures items { self.new.items ≡ self.old.items }
        ensures ok { OnOk result (n ≤ self.new.room) }
        ensures succeeds { n ≤ self.old.room → IsOk result }
        ensures room { self.old.room ≤ self.new.room }
    {
        if n > MOST_ENTRIES.saturating_sub(self.columns.len()) {
            return Err(AllocError);
        }
        self.columns.reserve(n)?;
        self.actors.reserve(n)
    }

    /// How many there are.
    pub(crate) fn len(&self) -> usize
        ensures value { result ≡ length self.now.items }
        ensures most { result ≤ 4294967295 }
        ensures more { 0 < self.now.room → result < 4294967295 }
    {
        self.columns.len()
    }

    /// An element's counter.
    pub(crate) fn counter(&self, number: usize) -> u64
        requires { number < length self.now.items }
        ensures { result ≡ counter_of_element self.now.items number }
    {
        self.columns.counter(number)
    }

    /// An element's character.
    pub fn ch(&self, number: usize) -> char
        requires { number < length self.now.items }
        ensures { result ≡ (element_at self.now.items number).ch }
    {
        self.columns.ch(number)
    }

    /// An element's identifier.
    pub fn id(&self, number: usize) -> OpId
        requires { number < length self.now.items }
        ensures { result ≡ (element_at self.now.items number).id }
    {
        OpId {
            counter: self.columns.counter(number),
            actor: self.actors[self.columns.author(number) as usize],
        }
    }

    /// An element.
    pub fn get(&self, number: usize) -> Insertion
        requires { number < length self.now.items }
        ensures { result ≡ element_at self.now.items number }
    {
        let after = match self.columns.after(number) {
            Reference::Start => Place::Start,
            Reference::After(reference) => Place::After(self.id(reference as usize)),
        };
        Insertion {
            id: self.id(number),
            after,
            ch: self.ch(number),
        }
    }

    /// The number of the element with an identifier, or `None` where there is none. One pass.
    pub(crate) fn search(&self, id: &OpId) -> Option<usize>
        ensures { result ≡ position (λ (e : Insert). id_eq e.id id.now) self.now.items }
    {
        for number in 0..self.len() {
            if self.id(number).is(id) {
                return Some(number);
            }
        }
        None
    }

    /// Takes in the next element. Its actor is that of the sibling, or a new one where none is named. It takes no memory.
    pub(crate) fn push(&mut self, id: OpId, sibling: Option<u32>, after: Reference, ch: char)
        requires room { 0 < self.old.room }
        requires sibling { IfSome sibling
            (λ k. (k < length self.old.items) × (actor_of_element self.old.items k ≡ id.actor)) }
        requires after { IsNumberBelow (length self.old.items) after }
        ensures items { self.new.items ≡ self.old.items
            ++ record { id = id; after = place_of_reference self.old.items after; ch = ch } ∷ [] }
        ensures fits { length self.new.items < 2 ^ 64 }
        ensures room { self.old.room ≤ self.new.room + 1 }
    {
        match sibling {
            Some(number) => {
                let author = self.columns.author(number as usize);
                self.columns.push(Entry {
                    counter: id.counter,
                    author,
                    after,
                    ch,
                });
            }
            None => {
                let author = add(&mut self.actors, id.actor);
                self.columns.push(Entry {
                    counter: id.counter,
                    author,
                    after,
                    ch,
                });
            }
        }
    }
}

/// Puts an actor at the end of a table, and gives its index. It takes no memory.
fn add(actors: &mut Vec<Actor>, actor: Actor) -> u32
    requires room { vec_len actors.old < vec_capacity actors.old }
    requires few { vec_len actors.old < 4294967295 }
    ensures index { result ≡ length actors.old.items }
    ensures actors { actors.new.items ≡ actors.old.items ++ actor ∷ [] }
    ensures room { vec_capacity actors.old - vec_len actors.old
        ≤ vec_capacity actors.new - vec_len actors.new + 1 }
{
    let index = actors.len() as u32;
    if actors.push(actor).is_err() {
        unreachable!()
    }
    index
}

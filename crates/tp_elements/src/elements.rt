//! The elements by number, with an index by identifier.

ghost use Rattle.std.specs.Prelude.{◌≡◌, ◌+◌, ◌^◌, ◌<◌, ◌≤◌, [], ◌∷◌, ◌++◌, length, position, IsOk, OnOk, IfOk, IsTrue};
ghost use Rattle.tp_opid.specs.Insert.{Insert};
ghost use Rattle.tp_opid.specs.Same.{id_eq};
ghost use Rattle.tp_opid.specs.Tree.{HasReference};
ghost use Rattle.tp_elements.specs.Entered.{IsNumberBelow, place_of_reference};

use crate::actors::find;
use crate::entries::Entries;
use crate::entry::Reference;
use crate::links::{Latest, Link};
use crate::lookup::{likely, link_next, seek};
use std::alloc::{AllocError, Global};
use std::marker::Model;
use tp_list::copy_with_room;
use tp_opid::{OpId, Place};

/// The elements in the order in which they came: the number of an element is how many came before it.
///
/// The latest element of each actor is kept in the order of the actors, and each element is linked to earlier ones of
/// its actor. A look-up finds the actor's latest element, in as many comparisons as the logarithm of the number of
/// actors; it is there at once if that is the one, makes up to 8 guesses else, and then goes back along the links, as
/// many steps as the logarithm of how many elements the actor has. This holds while each actor's counters rise, as they
/// do where changes enter after their dependencies. Once one doesn't, a look-up passes over all elements.
#[derive(Drop)]
pub struct Elements {
    entries: Entries,
    latest: Vec<Latest>,
    links: Vec<Link>,
    rising: bool,
}

impl Model for Elements {
    ghost use Rattle.std.specs.Prelude.{◌-◌, min, IsTrue};
    ghost use Rattle.std.specs.Vec.{vec_len, vec_capacity};
    ghost use Rattle.tp_elements.specs.Came.{Came};
    ghost use Rattle.tp_elements.specs.Indexed.{IsIndexed};

    ghost Value = { Came };

    ghost view = { λ e. record {
      items = e.entries.items;
      room = min
          e.entries.room
          (min (vec_capacity e.links - vec_len e.links) (vec_capacity e.latest - vec_len e.latest));
    } };

    ghost invariant = { λ e. IsTrue e.rising → IsIndexed e.entries.items e.latest.items e.links.items };
}

impl Elements {
    /// No elements. It takes no memory.
    pub fn new(alloc: Global) -> Elements
        ensures { result.items ≡ [] }
    {
        Elements {
            entries: Entries::new(alloc),
            latest: Vec::new(alloc),
            links: Vec::new(alloc),
            rising: true,
        }
    }

    /// The same elements, with the index as it is. Where memory is short it is an `Err`.
    pub fn copy(&self, alloc: Global) -> Result<Elements, AllocError>
        ensures { IfOk result (λ copy. copy.items ≡ self.now.items) }
    {
        let entries = self.entries.copy(alloc)?;
        let latest = copy_with_room(alloc, self.latest.as_slice())?;
        let links = copy_with_room(alloc, self.links.as_slice())?;
        Ok(Elements {
            entries,
            latest,
            links,
            rising: self.rising,
        })
    }

    /// Makes room for `n` more elements, of whatever actors. Where memory is short, or there would be more than
    /// 4,294,967,295, it is an `Err`, and the elements stay. Room never shrinks here.
    pub fn reserve(&mut self, n: usize) -> Result<(), AllocError>
        ensures items { self.new.items ≡ self.old.items }
        ensures ok { OnOk result (n ≤ self.new.room) }
        ensures succeeds { n ≤ self.old.room → IsOk result }
        ensures room { self.old.room ≤ self.new.room }
    {
        self.entries.reserve(n)?;
        self.links.reserve(n)?;
        self.latest.reserve(n)
    }

    /// How many there are.
    pub fn len(&self) -> usize
        ensures value { result ≡ length self.now.items }
        ensures most { result ≤ 4294967295 }
    {
        self.entries.len()
    }

    /// The elements by number.
    pub fn entries(&self) -> &Entries
        ensures { result.now.items ≡ self.now.items }
    {
        &self.entries
    }

    /// The number of the element with an identifier, or `None` where there is none.
    pub fn number_of(&self, id: &OpId) -> Option<usize>
        ensures { result ≡ position (λ (e : Insert). id_eq e.id id.now) self.now.items }
    {
        if !self.rising {
            return self.entries.search(id);
        }
        let Ok(entry) = find(&self.latest, &id.actor) else {
            return None;
        };
        let last = self.latest[entry].number as usize;
        let at = likely(&self.entries, last, id.counter);
        if self.entries.id(at).is(id) {
            return Some(at);
        }
        let at = seek(&self.entries, &self.links, last, id.counter)?;
        if self.entries.counter(at) == id.counter {
            Some(at)
        } else {
            None
        }
    }

    /// A reference by the number of its element, which is looked up.
    pub fn reference_of(&self, place: &Place) -> Reference
        requires { HasReference self.now.items place.now }
        ensures below { IsNumberBelow (length self.now.items) result }
        ensures place { place_of_reference self.now.items result ≡ place.now }
    {
        match place {
            Place::Start => Reference::Start,
            Place::After(id) => match self.number_of(id) {
                Some(number) => {
                    prove!(number < self.len());
                    Reference::After(number as u32)
                }
                None => unreachable!(),
            },
        }
    }

    /// Takes in the next element, in as many comparisons as the logarithm of the number of actors. It takes no memory;
    /// the entry of a new actor moves those of the actors after it.
    pub fn push(&mut self, id: OpId, after: Reference, ch: char)
        requires room { 0 < self.old.room }
        requires after { IsNumberBelow (length self.old.items) after }
        ensures items { self.new.items ≡ self.old.items
            ++ record { id = id; after = place_of_reference self.old.items after; ch = ch } ∷ [] }
        ensures fits { length self.new.items < 2 ^ 64 }
        ensures room { self.old.room ≤ self.new.room + 1 }
    {
        if self.rising {
            let linked = link_next(&self.entries, &mut self.latest, &mut self.links, &id);
            self.rising = linked.rising;
            self.entries.push(id, linked.sibling, after, ch);
        } else {
            self.entries.push(id, None, after, ch);
        }
    }
}

//! A sequence in three plain vectors.

ghost use Rattle.std.specs.Prelude.{◌≡◌, ◌↔◌, ℕ, ◌+◌, ◌-◌, ◌^◌, ◌<◌, ◌≤◌, List, [], ◌∷◌, ◌++◌, length, insert, IsTrue, IsOk, OnOk, OnErr, IfOk, IfSome, IsSome, slice_get, false};
ghost use Rattle.tp_opid.specs.declared.op_id.OpId.{OpId as Id};
ghost use Rattle.tp_opid.specs.Insert.{Insert};
ghost use Rattle.std.specs.Vec.{vec_len, vec_capacity};

use crate::element::Element;
use crate::flags::{count_left, nth_left};
use crate::insertion::Insertion;
use crate::placed::{can_insert, contains, index_for, index_of};
use crate::sequence::Sequence;
use std::alloc::{AllocError, Global};
use std::marker::Model;
use tp_list::copy_with_room;
use tp_opid::{OpId, Place};

/// A sequence whose elements are in one vector, in order.
///
/// An insert searches its reference from the end and moves what is after the new element; a delete searches its
/// target from the start. A read by position passes over a byte for each element before it, `len` and `all` over none.
pub struct PlainSequence {
    elements: Vec<Insertion>,
    deleted: Vec<bool>,
    deletes: Vec<(OpId, OpId)>,
    left: usize,
}

impl Drop for PlainSequence {
    fn drop(self) {
        let PlainSequence {
            elements: _,
            deleted: _,
            deletes: _,
            left: _,
        } = self;
    }
}

impl Model for PlainSequence {
    ghost use Rattle.std.specs.Prelude.{◌-◌, min};
    ghost use Rattle.std.specs.Vec.{vec_len, vec_capacity};
    ghost use Rattle.tp_rga.specs.State.{State};
    ghost use Rattle.tp_rga.specs.PlainState.{IsPlainState};

    ghost Value = { State };

    ghost view = { λ s. record {
      placed = s.elements.items;
      removals = s.deletes.items;
      room = min
          (min (vec_capacity s.elements - vec_len s.elements) (vec_capacity s.deleted - vec_len s.deleted))
          (vec_capacity s.deletes - vec_len s.deletes);
    } };

    ghost invariant = { λ s. IsPlainState s.elements.items s.deleted.items s.deletes.items s.left };
}

impl Sequence for PlainSequence {
    ghost placed = { λ s. s.placed };

    ghost removals = { λ s. s.removals };

    ghost room = { λ s. s.room };

    fn new(alloc: Global) -> Self {
        PlainSequence {
            elements: Vec::new(alloc),
            deleted: Vec::new(alloc),
            deletes: Vec::new(alloc),
            left: 0,
        }
    }

    fn reserve(&mut self, n: usize) -> Result<(), AllocError> {
        self.elements.reserve(n)?;
        self.deleted.reserve(n)?;
        self.deletes.reserve(n)
    }

    fn insert(&mut self, id: OpId, after: Place, ch: char) -> Result<(), AllocError> {
        let at = index_for(&self.elements, &id, &after);
        put_in(
            &mut self.elements,
            &mut self.deleted,
            at,
            Insertion { id, after, ch },
        )?;
        self.left += 1;
        Ok(())
    }

    fn delete(&mut self, target: OpId, by: OpId) -> Result<(), AllocError> {
        self.deletes.push((target, by))?;
        if let Some(i) = index_of(&self.elements, &target) {
            if !self.deleted[i] {
                self.deleted[i] = true;
                self.left -= 1;
            }
        }
        Ok(())
    }

    fn can_insert(&self, id: &OpId, after: &Place) -> bool {
        can_insert(&self.elements, id, after)
    }

    fn contains(&self, id: &OpId) -> bool {
        contains(&self.elements, id)
    }

    fn len(&self) -> usize {
        self.left
    }

    fn char_at(&self, i: usize) -> Option<char> {
        match nth_left(&self.deleted, i) {
            Some(k) => {
                let e = &self.elements[k];
                Some(e.ch)
            }
            None => None,
        }
    }

    fn id_at(&self, i: usize) -> Option<OpId> {
        match nth_left(&self.deleted, i) {
            Some(k) => {
                let e = &self.elements[k];
                Some(e.id)
            }
            None => None,
        }
    }

    fn position(&self, id: &OpId) -> Option<usize> {
        match index_of(&self.elements, id) {
            Some(k) => Some(count_left(&self.deleted[..k])),
            None => None,
        }
    }

    fn index(&self, id: &OpId) -> Option<usize> {
        index_of(&self.elements, id)
    }

    fn all(&self) -> usize {
        self.elements.len()
    }

    fn element(&self, i: usize) -> Option<Element> {
        if i < self.elements.len() {
            let e = &self.elements[i];
            Some(Element {
                id: e.id,
                after: e.after,
                ch: e.ch,
                deleted: self.deleted[i],
            })
        } else {
            None
        }
    }

    fn deletes(&self) -> &[(OpId, OpId)] {
        self.deletes.as_slice()
    }

    /// A copy of the vectors, in one pass over each. It is never `None`.
    fn try_copy(&self, alloc: Global) -> Result<Option<Self>, AllocError>
        ensures placed { IfOk result (λ copy. IfSome copy (λ s. s.placed ≡ self.now.placed)) }
        ensures removals { IfOk result (λ copy. IfSome copy (λ s. s.removals ≡ self.now.removals)) }
        ensures given { IfOk result (λ copy. IsSome copy) }
    {
        let elements = copy_with_room(alloc, self.elements.as_slice())?;
        let deleted = copy_with_room(alloc, self.deleted.as_slice())?;
        let deletes = copy_with_room(alloc, self.deletes.as_slice())?;
        Ok(Some(PlainSequence {
            elements,
            deleted,
            deletes,
            left: self.left,
        }))
    }
}

/// Puts an element in at an index, with its flag.
fn put_in(
    elements: &mut Vec<Insertion>,
    deleted: &mut Vec<bool>,
    at: usize,
    e: Insertion,
) -> Result<(), AllocError>
    requires at { at ≤ vec_len elements.old }
    requires same { vec_len deleted.old ≡ vec_len elements.old }
    ensures ok { OnOk result ((elements.new.items ≡ insert elements.old.items at e)
        × (deleted.new.items ≡ insert deleted.old.items at false)
        × (vec_len elements.new ≡ vec_len elements.old + 1)
        × (vec_len deleted.new ≡ vec_len deleted.old + 1)) }
    ensures err { OnErr result ((elements.new.items ≡ elements.old.items)
        × (deleted.new.items ≡ deleted.old.items)
        × (vec_len elements.new ≡ vec_len elements.old)
        × (vec_len deleted.new ≡ vec_len deleted.old)) }
    ensures succeeds { (vec_len elements.old < vec_capacity elements.old)
        → (vec_len deleted.old < vec_capacity deleted.old)
        → IsOk result }
    ensures fits { vec_len elements.new < 2 ^ 64 }
    ensures elements_room { vec_capacity elements.old ≤ vec_capacity elements.new }
    ensures deleted_room { vec_capacity deleted.old ≤ vec_capacity deleted.new }
{
    deleted.reserve(1)?;
    elements.insert(at, e)?;
    if deleted.insert(at, false).is_err() {
        unreachable!()
    }
    Ok(())
}

//! What a sequence of elements does, whatever keeps it.

ghost use Rattle.std.specs.Prelude.{◌≡◌, ◌↔◌, ℕ, ◌+◌, ◌<◌, ◌≤◌, List, [], ◌∷◌, ◌++◌, length, IsTrue, IsOk, OnOk, OnErr, IfOk, IfSome, OnSome, slice_get};
ghost use Rattle.std.specs.Option.{option_map};
ghost use Rattle.tp_opid.specs.declared.op_id.OpId.{OpId as Id};
ghost use Rattle.tp_opid.specs.Insert.{Insert};
ghost use Rattle.tp_opid.specs.Tree.{IsThere, CanInsert};
ghost use Rattle.tp_rga.specs.Order.{IsInserted};
ghost use Rattle.tp_rga.specs.Shown.{visible_of, visible_before, index_in, element_of, seen_of};
ghost use Rattle.tp_rga.specs.declared.walk.Spot.{Spot as SpotOf};

use crate::element::Element;
use crate::walk::{Seen, Walk};
use std::alloc::{AllocError, Global};
use tp_opid::{OpId, Place};

/// The elements of a text in their order, and the deletes that came.
///
/// Contracts see three things: the elements in order with tombstones among them (`placed`), the deletes in the order
/// of the calls (`removals`), and how many inserts or deletes take no further memory (`room`). The text is what
/// `removals` leaves of `placed`. Positions in the text count its characters from 0.
pub trait Sequence: Drop {
    ghost placed: { Self → List Insert };

    ghost removals: { Self → List (Id × Id) };

    ghost room: { Self → ℕ };

    // At the spot is the element with the index, or there the elements end.
    ghost present_at: { Self → SpotOf → ℕ → Type 0 } = { λ _ _ _. ⊥ };

    /// A sequence without elements, which takes no memory.
    fn new(alloc: Global) -> Self
        ensures placed { placed result ≡ [] }
        ensures removals { removals result ≡ [] }
        ensures room { room result ≡ 0 };

    /// Makes room for `n` further inserts and deletes together, none of which then takes memory. Room never shrinks
    /// here. Where memory is short it is an `Err`, and the elements and deletes stay. It can't fail where that room is
    /// there already.
    fn reserve(&mut self, n: usize) -> Result<(), AllocError>
        ensures placed { placed self.new ≡ placed self.old }
        ensures removals { removals self.new ≡ removals self.old }
        ensures ok { OnOk result (n ≤ room self.new) }
        ensures succeeds { n ≤ room self.old → IsOk result }
        ensures room { room self.old ≤ room self.new };

    /// Takes in an insert: the element goes right after its reference, past each element with a greater identifier up
    /// to the first that has none. Where the elements were in order, they are in order with the new one.
    ///
    /// The caller sees to it that the identifier is new and the reference there and smaller, by `can_insert`. Where
    /// memory is short it is an `Err`, and nothing changes.
    fn insert(&mut self, id: OpId, after: Place, ch: char) -> Result<(), AllocError>
        requires { CanInsert (placed self.old) id after }
        ensures ok { OnOk result
            (IsInserted (placed self.old) (placed self.new)
            (record { id = id; after = after; ch = ch })) }
        ensures err { OnErr result (placed self.new ≡ placed self.old) }
        ensures removals { removals self.new ≡ removals self.old }
        ensures succeeds { 0 < room self.old → IsOk result }
        ensures room { room self.old ≤ room self.new + 1 };

    /// Takes in a delete of the element `target` by the operation `by`. The element stays as a tombstone, and an
    /// element may be deleted again. Where memory is short it is an `Err`, and nothing changes.
    fn delete(&mut self, target: OpId, by: OpId) -> Result<(), AllocError>
        requires { IsThere (placed self.old) target }
        ensures ok { OnOk result (removals self.new ≡ removals self.old ++ (target, by) ∷ []) }
        ensures err { OnErr result (removals self.new ≡ removals self.old) }
        ensures placed { placed self.new ≡ placed self.old }
        ensures succeeds { 0 < room self.old → IsOk result }
        ensures room { room self.old ≤ room self.new + 1 };

    /// Whether an insert with this identifier after this reference may come: the identifier is new, and the reference
    /// is the start or an element that is there and has a smaller identifier.
    fn can_insert(&self, id: &OpId, after: &Place) -> bool
        ensures { IsTrue result ↔ CanInsert (placed self.now) id.now after.now };

    /// Whether an element has this identifier, deleted or not.
    fn contains(&self, id: &OpId) -> bool
        ensures { IsTrue result ↔ IsThere (placed self.now) id.now };

    /// How many characters the text has.
    fn len(&self) -> usize
        ensures { result ≡ length (visible_of (removals self.now) (placed self.now)) };

    /// The character at a position of the text, or `None` past its end.
    fn char_at(&self, i: usize) -> Option<char>
        ensures { result
            ≡ option_map (λ e. e.ch) (slice_get (visible_of (removals self.now) (placed self.now)) i) };

    /// The identifier of the element at a position of the text, or `None` past its end.
    fn id_at(&self, i: usize) -> Option<OpId>
        ensures { result
            ≡ option_map (λ e. e.id) (slice_get (visible_of (removals self.now) (placed self.now)) i) };

    /// How many characters of the text are before an element, which may be deleted; `None` where no element has
    /// that identifier.
    fn position(&self, id: &OpId) -> Option<usize>
        ensures { result ≡ visible_before (removals self.now) (placed self.now) id.now };

    /// The index of an element in the list of all elements, deleted ones among them; `None` where no element has that
    /// identifier. A sequence that doesn't know it goes over the elements before it.
    fn index(&self, id: &OpId) -> Option<usize>
        ensures { result ≡ index_in (placed self.now) id.now }
    {
        let mut walk = Walk::start();
        while let Some(element) = self.next_element(&mut walk) {
            if element.id.is(id) {
                return Some(walk.index - 1);
            }
        }
        None
    }

    /// How many elements there are, with the deleted ones.
    fn all(&self) -> usize
        ensures { result ≡ length (placed self.now) };

    /// The element at an index of the list of all elements, or `None` past its end.
    fn element(&self, i: usize) -> Option<Element>
        ensures { result
            ≡ option_map (element_of (removals self.now)) (slice_get (placed self.now) i) };

    /// The deletes that came, each as its target and the operation that deleted it, in the order of the calls.
    fn deletes(&self) -> &[(OpId, OpId)]
        ensures { result.now ≡ removals self.now };

    /// The next element of a walk, which goes on after it, or `None` past the end. A walk from [`Walk::start`] on shows
    /// all elements in their order, and each costs no look-up where the sequence notes where it is.
    fn next_element(&self, walk: &mut Walk) -> Option<Seen>
        requires { IfSome walk.old.spot (λ spot. present_at self.now spot walk.old.index) }
        ensures seen { result ≡ option_map (seen_of (removals self.now))
            (slice_get (placed self.now) walk.old.index) }
        ensures spot { IfSome walk.new.spot (λ spot. present_at self.now spot walk.new.index) }
        ensures next { OnSome result (walk.new.index ≡ walk.old.index + 1) }
    {
        if walk.index == usize::MAX {
            // No element has this index: `all` counts them, and a count is at most this.
            let _all = self.all();
            return None;
        }
        let element = self.element(walk.index)?;
        *walk = Walk {
            index: walk.index + 1,
            spot: None,
        };
        Some(Seen {
            id: element.id,
            ch: element.ch,
            deleted: element.deleted,
        })
    }

    /// A sequence with the same elements and deletes, where it can be copied as it is: no element is looked up or put
    /// in anew. It is `None` where a sequence doesn't offer that, and a copy has to be made by calls of `insert` and
    /// `delete`. The copy may have less room. Where memory is short it is an `Err`.
    fn try_copy(&self, alloc: Global) -> Result<Option<Self>, AllocError>
        ensures placed { IfOk result (λ copy. IfSome copy (λ s. placed s ≡ placed self.now)) }
        ensures removals { IfOk result (λ copy. IfSome copy (λ s. removals s ≡ removals self.now)) }
    {
        let _ = alloc;
        Ok(None)
    }
}

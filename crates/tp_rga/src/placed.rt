//! The elements in their order, as they are kept, and where an insert goes.

ghost use Rattle.std.specs.Prelude.{◌≡◌, ◌↔◌, ℕ, ◌<◌, ◌≤◌, true, false, length, insert, position, take, IsTrue, MatchBool, IfSome, IfNone};
ghost use Rattle.std.specs.List.{All, AllWithin, HoldsAt};
ghost use Rattle.tp_opid.specs.Insert.{Insert};
ghost use Rattle.tp_opid.specs.Order.{Below};
ghost use Rattle.tp_opid.specs.Same.{id_eq};
ghost use Rattle.tp_opid.specs.Tree.{IsThere, IsNew, HasReference, IsReferenceBelow, CanInsert};
ghost use Rattle.tp_rga.specs.Order.{EndsAt, IsInserted};

use crate::insertion::Insertion;
use tp_opid::{OpId, Place};

/// The index of the first element with an identifier. The cost is a pass over the elements before it.
pub fn index_of(elements: &[Insertion], id: &OpId) -> Option<usize>
    ensures { result ≡ position (λ e. id_eq e.id id.now) elements.now }
{
    elements.iter().position(|e| e.id.is(id))
}

/// The index of an element with an identifier, searched from the end, where edits mostly fall.
fn last_index_of(elements: &[Insertion], id: &OpId) -> Option<usize>
    ensures found { IfSome result
        (λ i. (i < length elements.now) × HoldsAt (λ e. IsTrue (id_eq e.id id.now)) elements.now i) }
    ensures none { IfNone result (All (λ e. id_eq e.id id.now ≡ false) elements.now) }
{
    elements.iter().rposition(|e| e.id.is(id))
}

/// From an index on, past each element with a greater identifier, up to the first that has none or to the end.
fn past_greater(elements: &[Insertion], from: usize, id: &OpId) -> usize
    requires { from ≤ length elements.now }
    ensures from { from ≤ result }
    ensures within { result ≤ length elements.now }
    ensures passed { AllWithin (λ e. Below id.now e.id) elements.now from result }
    ensures stops { result < length elements.now
        → HoldsAt (λ e. ¬ Below id.now e.id) elements.now result }
{
    for i in from..elements.len() {
        let e = &elements[i];
        if !id.is_below(&e.id) {
            return i;
        }
    }
    elements.len()
}

/// Whether an element has an identifier, searched from the end.
pub fn contains(elements: &[Insertion], id: &OpId) -> bool
    ensures { MatchBool result (IsThere elements.now id.now) (IsNew elements.now id.now) }
{
    match last_index_of(elements, id) {
        Some(_) => true,
        None => false,
    }
}

/// Whether a reference is the start, or an element that is there and is below an identifier.
pub fn is_reference_below(elements: &[Insertion], id: &OpId, place: &Place) -> bool
    ensures { IsTrue result ↔ IsReferenceBelow elements.now id.now place.now }
{
    match place {
        Place::Start => true,
        Place::After(reference) => reference.is_below(id) && contains(elements, reference),
    }
}

/// Whether an insert with this identifier after this reference may come.
pub fn can_insert(elements: &[Insertion], id: &OpId, after: &Place) -> bool
    ensures { IsTrue result ↔ CanInsert elements.now id.now after.now }
{
    !contains(elements, id) && is_reference_below(elements, id, after)
}

/// How many elements there are up to a reference: none up to the start.
fn up_to(elements: &[Insertion], place: &Place) -> usize
    requires { HasReference elements.now place.now }
    ensures within { result ≤ length elements.now }
    ensures ends { EndsAt (take result elements.now) place.now }
{
    match place {
        Place::Start => 0,
        Place::After(reference) => match last_index_of(elements, reference) {
            Some(i) => i + 1,
            None => unreachable!(),
        },
    }
}

/// The index where an insert goes: right after its reference, past each element with a greater identifier.
pub fn index_for(elements: &[Insertion], id: &OpId, after: &Place) -> usize
    requires { CanInsert elements.now id.now after.now }
    ensures within { result ≤ length elements.now }
    ensures order { (ch : ℕ) → let x : Insert = record { id = id.now; after = after.now; ch = ch }
        in
        IsInserted elements.now (insert elements.now result x) x }
{
    past_greater(elements, up_to(elements, after), id)
}

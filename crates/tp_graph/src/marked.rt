//! Marks of applied changes of many operations: so whether such a change inserts at a counter is a look-up, however
//! many records it has.

ghost use Rattle.std.specs.Prelude.{◌≡◌, ◌<◌, ◌≤◌, List, [], ◌∷◌, ◌++◌, length, Some, IfOk, IfSome, vec_len, vec_capacity};
ghost use Rattle.std.specs.List.{slice_get};
ghost use Rattle.tp_layout.specs.declared.parts.ChangeParts.{ChangeParts};
ghost use Rattle.tp_change.specs.Operations.{op_count};
ghost use Rattle.tp_graph.specs.Before.{IsClear};
ghost use Rattle.tp_graph.specs.Marked.{IsSameMarked, IsMarked, AreMarked};

use crate::before::put;
use crate::judge::FEW;
use std::alloc::{AllocError, Global};
use tp_ancestry::push_within;
use tp_change::Change;
use tp_history::next_to_look_at;

/// The marks of the change at the place: one for each of its operations that is a delete.
#[derive(Drop)]
pub(crate) struct Marked {
    pub(crate) place: usize,
    pub(crate) deletes: Vec<bool>,
}

impl Clone for Marked {
    ghost is_clone = { IsSameMarked };

    fn clone(&self) -> Result<Marked, AllocError> {
        Ok(Marked {
            place: self.place,
            deletes: Vec::from_slice(*self.deletes.allocator(), self.deletes.as_slice())?,
        })
    }
}

/// Room for the marks of the change: none where it has few operations.
pub(crate) fn room_for(alloc: Global, change: &Change) -> Result<Vec<bool>, AllocError>
    ensures { IfOk result (λ v. IsClear v.items) }
{
    let count = change.op_count();
    if count <= FEW {
        return Ok(Vec::new(alloc));
    }
    vec![in alloc; false; count]
}

// Marks the deletes of the change.
fn mark_deletes(deletes: &mut [bool], change: &Change)
    requires clear { IsClear deletes.old }
    requires room { op_count change.now ≤ length deletes.old }
    ensures { IsMarked change.now deletes.new }
{
    let records = change.records();
    let mut count = 0;
    for i in 0..records.len() {
        count = put(deletes, count, &records[i]);
    }
}

/// Keeps the marks of a change that enters at the place, where the room is for as many operations.
pub(crate) fn keep(marked: &mut Vec<Marked>, place: usize, change: &Change, room: Vec<bool>)
    requires room { vec_len marked.old < vec_capacity marked.old }
    requires clear { IsClear room.items }
    ensures { (C : List ChangeParts) → place ≡ length C → AreMarked C marked.old.items
        → AreMarked (C ++ change.now ∷ []) marked.new.items }
{
    let mut deletes = room;
    if deletes.is_empty() || deletes.len() < change.op_count() {
        return;
    }
    mark_deletes(deletes.as_mut_slice(), change);
    push_within(marked, Marked { place, deletes });
}

/// The marks of the change at the place, where they are kept. The entries are in the order of their places, so it
/// takes a number of comparisons that grows with the logarithm of their number, and few for one of the latest; where
/// they didn't, marks could be missed.
pub(crate) fn find(marked: &[Marked], place: usize) -> Option<&[bool]>
    ensures { IfSome result (λ deletes. (C : List ChangeParts) → AreMarked C marked.now
        → (c : ChangeParts) → slice_get C place ≡ Some c → IsMarked c deletes.now) }
{
    let mut low = 0;
    let mut high = marked.len();
    while low < high {
        let middle = next_to_look_at(low, high, marked.len());
        if marked[middle].place < place {
            low = middle + 1;
        } else {
            high = middle;
        }
    }
    if low == marked.len() {
        return None;
    }
    if marked[low].place != place {
        return None;
    }
    Some(marked[low].deletes.as_slice())
}

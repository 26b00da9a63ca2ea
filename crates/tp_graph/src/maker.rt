//! The change that has an operation.

ghost use Rattle.std.specs.Prelude.{◌≡◌, ◌<◌, Some, length, IsTrue};
ghost use Rattle.std.specs.List.{slice_get};
ghost use Rattle.tp_layout.specs.declared.parts.ChangeParts.{ChangeParts};
ghost use Rattle.tp_history.specs.ByActor.{HasOp, IsMaker};

use tp_ancestry::Ancestry;
use tp_history::next_to_look_at;
use tp_opid::OpId;

// Whether the change at the place has the operation.
fn has_op(ancestry: &Ancestry, place: usize, id: &OpId) -> bool
    requires { place < length ancestry.now.changes }
    ensures { IsTrue result → (c : ChangeParts) → slice_get ancestry.now.changes place ≡ Some c
        → HasOp id.now c }
{
    let change = ancestry.at(place);
    if !change.actor().is(&id.actor) {
        return false;
    }
    change.start() <= id.counter && id.counter < ancestry.end_at(place)
}

/// The place of the change that has the operation: the last one, which is asked for most, or else of its actor's
/// changes the first that ends after the counter, since that is the only one that may. A number of comparisons that
/// grows with the logarithm of the number of these changes; few where it is one of the latest.
pub(crate) fn maker(ancestry: &Ancestry, id: &OpId) -> Option<usize>
    ensures { IsMaker ancestry.now.changes id.now result }
{
    let changes = ancestry.changes();
    if !changes.is_empty() && has_op(ancestry, changes.len() - 1, id) {
        return Some(changes.len() - 1);
    }
    let own = ancestry.changes_by(&id.actor);
    let mut low = 0;
    let mut high = own.len();
    while low < high {
        let middle = next_to_look_at(low, high, own.len());
        if ancestry.end_at(own.get(middle)) <= id.counter {
            low = middle + 1;
        } else {
            high = middle;
        }
    }
    if low < own.len() {
        Some(own.get(low))
    } else {
        None
    }
}

//! The one list of all elements, from the changes that were made.

ghost use Rattle.std.specs.Prelude.{◌≡◌, IfOk};
ghost use Rattle.tp_change.specs.Elements.{inserts};
ghost use Rattle.tp_history.specs.Sound.{Sound};
ghost use Rattle.tp_rga.specs.Order.{IsInOrder};
ghost use Rattle.tp_world.specs.Order.{IsOneList, pairs_of};

use std::alloc::{AllocError, Global};
use tp_change::Change;
use tp_edit::apply_change;
use tp_opid::OpId;
use tp_posindex::BlockSequence;
use tp_rga::{PlainSequence, Sequence, Walk};

// A sequence with all elements of the changes.
fn sequence_of<S: Sequence>(alloc: Global, changes: &[Change]) -> Result<S, AllocError>
    requires { Sound changes.now }
    ensures { IfOk result (λ s. IsInOrder (inserts changes.now) (S.placed s)) }
{
    let mut sequence = S::new(alloc);
    for change in changes {
        sequence.reserve(change.op_count())?;
        apply_change(&mut sequence, change);
    }
    Ok(sequence)
}

// The elements of a sequence, deleted ones among them, by one walk over them.
fn elements_of<S: Sequence>(alloc: Global, sequence: &S) -> Result<Vec<(OpId, char)>, AllocError>
    ensures { IfOk result (λ v. v.items ≡ pairs_of (S.placed sequence.now)) }
{
    let mut pairs = Vec::with_capacity(alloc, sequence.all())?;
    let mut walk = Walk::start();
    while let Some(element) = sequence.next_element(&mut walk) {
        pairs.push((element.id, element.ch))?;
    }
    Ok(pairs)
}

// The elements of the changes, in a sequence that is made for them.
fn order_in<S: Sequence>(alloc: Global, changes: &[Change]) -> Result<Vec<(OpId, char)>, AllocError>
    requires { Sound changes.now }
    ensures { IfOk result (λ v. IsOneList changes.now v.items) }
{
    let sequence: S = sequence_of(alloc, changes)?;
    elements_of(alloc, &sequence)
}

/// The one list of all elements that the changes insert, each with its identifier and its character. Each change is
/// entered anew, into blocks, or into a plain sequence where blocks refuse them: they hold 4,294,967,295 elements at most.
pub(crate) fn order_of(alloc: Global, changes: &[Change]) -> Result<Vec<(OpId, char)>, AllocError>
    requires { Sound changes.now }
    ensures { IfOk result (λ v. IsOneList changes.now v.items) }
{
    match order_in::<BlockSequence>(alloc, changes) {
        Ok(list) => Ok(list),
        Err(_) => order_in::<PlainSequence>(alloc, changes),
    }
}

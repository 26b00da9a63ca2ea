//! Changes put into a sequence.

ghost use Rattle.std.specs.Prelude.{◌≡◌, ◌+◌, ◌<◌, ◌≤◌, List, [], ◌∷◌, ◌++◌, length, true, IfOk, IsTrue};
ghost use Rattle.tp_change.specs.declared.op.Op.{Op as Operation};
ghost use Rattle.tp_change.specs.Operations.{ops_of, id_of};
ghost use Rattle.tp_change.specs.Elements.{deletes_in, refers};
ghost use Rattle.tp_edit.specs.Applying.{CanApply, Extends, IsPartlyApplied, IsRemainder};
ghost use Rattle.tp_opid.specs.Tree.{IsAboveAll};

use std::alloc::AllocError;
use tp_change::{Change, Op};
use tp_opid::Place;
use tp_rga::Sequence;

// Puts one operation into a sequence that has room for it.
fn apply_op<S: Sequence>(sequence: &mut S, op: Op)
    requires fits { CanApply (S.placed sequence.old) (op ∷ []) }
    requires room { 0 < S.room sequence.old }
    ensures elements { Extends (S.placed sequence.old) (S.placed sequence.new) (op ∷ []) }
    ensures removals { S.removals sequence.new ≡ S.removals sequence.old ++ deletes_in (op ∷ []) }
    ensures room { S.room sequence.old ≤ S.room sequence.new + 1 }
{
    let done = match op {
        Op::Insert { id, after, ch } => sequence.insert(id, after, ch),
        Op::Delete { id, target } => sequence.delete(target, id),
    };
    match done {
        Ok(()) => {}
        Err(_) => unreachable!(),
    }
}

/// Puts the operations of a change into a sequence, in order. The caller has made room for them, and knows that they
/// may be applied. The cost is that of the sequence's own inserts and deletes.
pub fn apply_change<S: Sequence>(sequence: &mut S, change: &Change)
    requires fits { CanApply (S.placed sequence.old) (ops_of change.now) }
    requires room { length (ops_of change.now) ≤ S.room sequence.old }
    ensures elements { Extends (S.placed sequence.old) (S.placed sequence.new) (ops_of change.now) }
    ensures removals { S.removals sequence.new
        ≡ S.removals sequence.old ++ deletes_in (ops_of change.now) }
    ensures room { S.room sequence.old ≤ S.room sequence.new + length (ops_of change.now) }
{
    for op in change.ops() {
        apply_op(sequence, op);
    }
}

/// Puts the operations of a change into a sequence, in order, where each reference and each target is there by then;
/// answers whether they all were. A beginning of the operations is in: all, or up to the first whose reference isn't
/// there, or up to one for which memory was refused.
pub fn apply_checked<S: Sequence>(sequence: &mut S, change: &Change) -> Result<bool, AllocError>
    requires { IsAboveAll (S.placed sequence.old) (id_of change.now.actor change.now.start) }
    ensures refers { IfOk result (λ all. all ≡ refers (S.placed sequence.old) (ops_of change.now)) }
    ensures elements { IfOk result
        (λ all. IsTrue all → Extends (S.placed sequence.old) (S.placed sequence.new)
        (ops_of change.now)) }
    ensures removals { IfOk result (λ all. IsTrue all → S.removals sequence.new
        ≡ S.removals sequence.old ++ deletes_in (ops_of change.now)) }
    ensures begun { (done : List Operation) × (left : List Operation)
        × IsPartlyApplied (S.placed sequence.old) (S.placed sequence.new) (S.removals sequence.old)
        (S.removals sequence.new) (ops_of change.now) done left
        × IsRemainder (S.placed sequence.new) result left }
{
    for op in change.ops() {
        if !has_reference(sequence, &op) {
            return Ok(false);
        }
        sequence.reserve(1)?;
        apply_op(sequence, op);
    }
    Ok(true)
}

// Whether the element that an operation refers to is there.
fn has_reference<S: Sequence>(sequence: &S, op: &Op) -> bool
    ensures { result ≡ refers (S.placed sequence.now) (op.now ∷ []) }
{
    match op {
        Op::Insert { after, .. } => match after {
            Place::Start => true,
            Place::After(id) => sequence.contains(id),
        },
        Op::Delete { target, .. } => sequence.contains(target),
    }
}

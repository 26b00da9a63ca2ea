//! A walk over the operations of a change.

ghost use Rattle.std.specs.Prelude.{◌≡◌, ◌+◌, ◌<◌, ◌^◌, ◌∷◌, [], MatchOption};
ghost use Rattle.std.specs.Iterator.{YieldsFirst, item_count};
ghost use Rattle.std.specs.Str.{chars};
ghost use Rattle.tp_layout.specs.declared.limits.TheConstants.{COUNTERS_END};
ghost use Rattle.tp_change.specs.Operations.{id_of, ops_of};
ghost use Rattle.tp_change.specs.OpsLeft.{ops_left, IsWalk};

use crate::change::Change;
use crate::op::Op;
use std::marker::Model;
use tp_layout::Record;
use tp_opid::{Actor, OpId, Place};

/// Where a walk is: in a run of characters, before the next one, then in a run of deletes, before the next target,
/// with the records after them.
#[derive(Drop)]
struct Walk<'a> {
    actor: Actor,
    counter: u64,
    after: Place,
    text: &'a str,
    target: OpId,
    deletes: u32,
    records: &'a [Record],
}

/// The first character of a text and the text after it.
fn first_char(text: &str) -> Option<(char, &str)>
    ensures { MatchOption result (chars text.now ≡ [])
        (λ first. chars text.now ≡ first.0 ∷ chars first.1.now) }
{
    let mut rest = text.chars();
    let ch = rest.next()?;
    Some((ch, rest.as_str()))
}

/// The identifier of the next operation. The one after it has the next counter.
fn next_id(walk: &mut Walk) -> OpId
    requires { walk.old.counter < COUNTERS_END }
    ensures id { result ≡ id_of walk.old.actor walk.old.counter }
    ensures goes_on { walk.new ≡ record walk.old { counter = walk.old.counter + 1 } }
{
    let id = OpId {
        counter: walk.counter,
        actor: walk.actor,
    };
    walk.counter += 1;
    id
}

/// The next insert of the run that the walk is in.
fn next_of_run(walk: &mut Walk) -> Option<Op>
    requires { IsWalk walk.old }
    ensures gives { MatchOption result ((chars walk.old.text.now ≡ []) × (walk.new ≡ walk.old))
        (λ op. ops_left walk.old ≡ op ∷ ops_left walk.new) }
    ensures keeps { IsWalk walk.new }
{
    let (ch, rest) = first_char(walk.text)?;
    let id = next_id(walk);
    let after = walk.after;
    walk.after = Place::After(id);
    walk.text = rest;
    Some(Op::Insert { id, after, ch })
}

/// The next delete of the run of deletes that the walk is in, where no character is left.
fn next_of_deletes(walk: &mut Walk) -> Option<Op>
    requires walk { IsWalk walk.old }
    requires no_text { chars walk.old.text.now ≡ [] }
    ensures gives { MatchOption result ((walk.old.deletes ≡ 0) × (walk.new ≡ walk.old))
        (λ op. ops_left walk.old ≡ op ∷ ops_left walk.new) }
    ensures keeps { IsWalk walk.new }
{
    if walk.deletes == 0 {
        return None;
    }
    let target = walk.target;
    walk.target.counter += 1;
    walk.deletes -= 1;
    let id = next_id(walk);
    Some(Op::Delete { id, target })
}

/// The next operation.
fn next_of_walk(walk: &mut Walk) -> Option<Op>
    requires { IsWalk walk.old }
    ensures gives { YieldsFirst ops_left walk.old result walk.new }
    ensures keeps { IsWalk walk.new }
{
    if let Some(op) = next_of_run(walk) {
        return Some(op);
    }
    if let Some(op) = next_of_deletes(walk) {
        return Some(op);
    }
    let (entry, rest) = walk.records.split_first()?;
    walk.records = rest;
    match entry {
        Record::Insert { after, text } => {
            walk.after = *after;
            walk.text = text.as_str();
            next_of_run(walk)
        }
        Record::Delete { target } => {
            let id = next_id(walk);
            Some(Op::Delete {
                id,
                target: *target,
            })
        }
        Record::DeleteRun { first, count } => {
            walk.target = *first;
            walk.deletes = *count;
            next_of_deletes(walk)
        }
    }
}

/// The operations of a change, in order: an iterator that takes no memory, and whose every step costs the same.
///
/// Contracts see the list of the operations that are left.
#[derive(Drop)]
pub struct Ops<'a> {
    walk: Walk<'a>,
}

impl<'a> Model for Ops<'a> {
    ghost use Rattle.std.specs.Prelude.{List};
    ghost use Rattle.tp_change.specs.declared.op.Op.{Op};

    ghost Value = { List Op };

    ghost use Rattle.tp_change.specs.OpsLeft.{ops_left, IsWalk};

    ghost view = { λ a. ops_left a.walk };

    ghost invariant = { λ a. IsWalk a.walk };
}

impl<'a> Iterator for Ops<'a> {
    type Item = Op;

    ghost next_gives = { YieldsFirst (λ rest. rest) };

    ghost remaining = { item_count (λ rest. rest) };

    fn next(&mut self) -> Option<Op> {
        next_of_walk(&mut self.walk)
    }
}

impl Change {
    /// The operations, in order: each record's in turn, with counters that run on from the start. No memory.
    pub fn ops(&self) -> Ops<'_>
        ensures { result ≡ ops_of self.now }
    {
        Ops {
            walk: Walk {
                actor: self.body.actor,
                counter: self.body.start,
                after: Place::Start,
                text: "",
                target: OpId {
                    counter: 0,
                    actor: self.body.actor,
                },
                deletes: 0,
                records: self.body.records(),
            },
        }
    }
}

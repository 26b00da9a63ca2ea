//! Splices that were done: where an element that is visible after them was before them.

ghost use Rattle.std.specs.Prelude.{◌≡◌, ◌+◌, ◌<◌, ◌≤◌, ◌^◌, ◌++◌, ◌∷◌, ℕ, List, [], Some, length, slice_get, IfOk, OnOk};
ghost use Rattle.tp_opid.specs.declared.actor.Actor.{Actor as Author};
ghost use Rattle.tp_opid.specs.declared.op_id.OpId.{OpId as Id};
ghost use Rattle.tp_rga.specs.Shown.{visible_of};
ghost use Rattle.tp_edit.specs.EditRecords.{visible_ids};
ghost use Rattle.tp_edit.specs.Landings.{AllLandingsFit, HasLandings, IsEdge, LeavesEdge, ids_through};

use std::alloc::{AllocError, Global};
use tp_opid::{Actor, OpId};
use tp_rga::Sequence;

// A splice that was done: where, how many characters it deleted and inserted, and the counter of the first one
// inserted.
#[derive(Clone, Copy)]
pub struct Landing {
    pub at: usize,
    pub del: usize,
    pub len: usize,
    pub first: u64,
}

// What the splices that were done left alone: the first `head` elements are where they were, and those from `end` on were
// from `base` on.
#[derive(Clone, Copy)]
pub struct Edge {
    pub head: u128,
    pub end: u128,
    pub base: u128,
}

impl Edge {
    // What is left alone once the splice was done too.
    fn with(self, landing: &Landing) -> Edge
        requires near { self.end ≤ 2 ^ 65 }
        requires short { self.base ≤ 2 ^ 64 }
        ensures leaves { LeavesEdge self landing.now result }
        ensures near { (n : ℕ) → self.end ≤ 2 ^ 64 + n → result.end ≤ 2 ^ 64 + n + landing.now.len }
    {
        let at = landing.at as u128;
        let past = at + landing.del as u128;
        let head = if at < self.head { at } else { self.head };
        if self.end <= past {
            Edge {
                head,
                end: at + landing.len as u128,
                base: self.base + (past - self.end),
            }
        } else {
            Edge {
                head,
                end: self.end - landing.del as u128 + landing.len as u128,
                base: self.base,
            }
        }
    }
}

// Splices that were done, one after another, and what they left alone.
#[derive(Drop)]
pub struct Landings {
    done: Vec<Landing>,
    edge: Edge,
}

impl Landings {
    // None, with room for `room`.
    pub fn none(alloc: Global, room: usize) -> Result<Landings, AllocError>
        ensures done { IfOk result (λ l. l.done.items ≡ []) }
        ensures edge { IfOk result (λ l. (actor : Author) (V : List Id) → IsEdge actor V [] l.edge) }
        ensures near { IfOk result (λ l. l.edge.end ≡ 0) }
    {
        let done = Vec::with_capacity(alloc, room)?;
        let edge = Edge {
            head: u128::MAX,
            end: 0,
            base: 0,
        };
        Ok(Landings { done, edge })
    }

    // The splice was done too.
    pub fn push(&mut self, landing: Landing) -> Result<(), AllocError>
        requires near { self.old.edge.end ≤ 2 ^ 65 }
        requires short { self.old.edge.base ≤ 2 ^ 64 }
        ensures done { OnOk result (self.new.done.items ≡ self.old.done.items ++ landing ∷ []) }
        ensures edge { OnOk result (LeavesEdge self.old.edge landing self.new.edge) }
        ensures near { OnOk result ((n : ℕ) → self.old.edge.end ≤ 2 ^ 64 + n
            → self.new.edge.end ≤ 2 ^ 64 + n + landing.len) }
    {
        let edge = self.edge.with(&landing);
        self.done.push(landing)?;
        self.edge = edge;
        Ok(())
    }
}

// The identifier of the element that is visible at a position of the sequence.
fn visible_id<S: Sequence>(sequence: &S, position: u128) -> OpId
    requires there { position < length
        (visible_ids (S.removals sequence.now) (S.placed sequence.now)) }
    requires counted { length (visible_of (S.removals sequence.now) (S.placed sequence.now)) < 2 ^ 64 }
    ensures { slice_get (visible_ids (S.removals sequence.now) (S.placed sequence.now)) position
        ≡ Some result }
{
    match sequence.id_at(position as usize) {
        Some(id) => id,
        None => unreachable!(),
    }
}

// The identifier of the element that is visible at a position after the landings. Each landing is looked at once at
// most, the latest first, and the sequence once at most.
fn traced_id<S: Sequence>(
    sequence: &S,
    actor: Actor,
    landings: &[Landing],
    mut position: u128,
) -> OpId
    requires fit { AllLandingsFit actor
        (visible_ids (S.removals sequence.now) (S.placed sequence.now))
        landings.now }
    requires there { position < length
        (ids_through actor
        (visible_ids (S.removals sequence.now) (S.placed sequence.now))
        landings.now) }
    requires near { position < 2 ^ 65 }
    requires counted { length (visible_of (S.removals sequence.now) (S.placed sequence.now)) < 2 ^ 64 }
    ensures { slice_get
        (ids_through actor
        (visible_ids (S.removals sequence.now) (S.placed sequence.now))
        landings.now)
        position
        ≡ Some result }
{
    let mut left = landings.len();
    while left > 0 {
        left -= 1;
        let landing = &landings[left];
        let at = landing.at as u128;
        let len = landing.len as u128;
        if at <= position {
            if position < at + len {
                let counter = landing.first + (position - at) as u64;
                return OpId { counter, actor };
            }
            position = position - len + landing.del as u128;
        }
    }
    visible_id(sequence, position)
}

// The identifier of the element that is visible at a position after the landings. One that they left alone is looked up
// at once; for another each landing is looked at once at most, the latest first.
pub fn id_through<S: Sequence>(
    sequence: &S,
    actor: Actor,
    landings: &Landings,
    position: u128,
) -> OpId
    requires landings { HasLandings actor
        (visible_ids (S.removals sequence.now) (S.placed sequence.now))
        landings.now }
    requires there { position < length
        (ids_through actor
        (visible_ids (S.removals sequence.now) (S.placed sequence.now))
        landings.now.done.items) }
    requires near { position < 2 ^ 65 }
    requires counted { length (visible_of (S.removals sequence.now) (S.placed sequence.now)) < 2 ^ 64 }
    ensures { slice_get
        (ids_through actor
        (visible_ids (S.removals sequence.now) (S.placed sequence.now))
        landings.now.done.items)
        position
        ≡ Some result }
{
    let edge = &landings.edge;
    if position < edge.head {
        return visible_id(sequence, position);
    }
    if edge.end <= position {
        return visible_id(sequence, edge.base + (position - edge.end));
    }
    traced_id(sequence, actor, landings.done.as_slice(), position)
}

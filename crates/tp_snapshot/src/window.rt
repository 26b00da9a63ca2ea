//! Which elements the changes outside a past name. All others are shown by the past just where they are shown now.

ghost use Rattle.std.specs.Prelude.{◌≡◌, ℕ, List, [], length, false, None, Some, IfOk, IsOkUnless};
ghost use Rattle.tp_change.specs.Operations.{ops_of};
ghost use Rattle.tp_opid.specs.Insert.{Insert};
ghost use Rattle.tp_opid.specs.declared.hash.Hash.{Hash as HashOf};
ghost use Rattle.tp_ancestry.specs.Outside.{IsOutside};
ghost use Rattle.tp_rga.specs.Shown.{index_in};
ghost use Rattle.tp_snapshot.specs.Windows.{named_element, HasNamed, HasOutside, HasReach, IsInReach, IsReachOf, IsWindowOf, NoneDeleted};
ghost use Rattle.tp_snapshot.specs.declared.error.SnapshotError.TheVariants.{OutOfMemory};

use crate::error::SnapshotError;
use tp_change::{Change, Op};
use tp_graph::{Graph, Outside};
use tp_opid::{Hash, OpId};
use tp_rga::{Sequence, Walk};

// About this many elements are gone over in the time of one look-up. Where the changes outside have more operations
// than there are look-ups in the time of a walk over all elements, that walk is taken.
const ELEMENTS_OF_A_LOOK_UP: usize = 32;

/// From the first to the last of the elements that some changes name.
#[derive(Clone, Copy)]
pub(crate) enum Reach {
    /// They name none.
    Nothing,
    /// The first of them, and the indices of the first and the last among all elements.
    Within {
        first: OpId,
        from: usize,
        last: usize,
    },
    /// All elements.
    Everything,
}

/// A part of the list of all elements: from an index on and before another. `at` of the elements before it are
/// visible.
#[derive(Clone, Copy)]
pub(crate) struct Window {
    pub(crate) at: usize,
    pub(crate) from: usize,
    pub(crate) to: usize,
}

// The element that an operation inserts or deletes.
fn named_by(op: &Op) -> OpId
    ensures { result ≡ named_element op.now }
{
    match op {
        Op::Insert { id, .. } => *id,
        Op::Delete { target, .. } => *target,
    }
}

impl Reach {
    // The reach with one element more.
    fn with(self, id: &OpId, index: usize) -> Reach
        ensures reach { (L : List Insert) → IsReachOf self L → index_in L id.now ≡ Some index
            → IsReachOf result L }
        ensures keeps { (k : ℕ) → IsInReach self k → IsInReach result k }
        ensures has { IsInReach result index }
    {
        match self {
            Reach::Nothing => Reach::Within {
                first: *id,
                from: index,
                last: index,
            },
            Reach::Within { first, from, last } => {
                let last = last.max(index);
                if index < from {
                    Reach::Within {
                        first: *id,
                        from: index,
                        last,
                    }
                } else {
                    Reach::Within { first, from, last }
                }
            }
            Reach::Everything => Reach::Everything,
        }
    }

    // The reach with an element that has this index, if it is there.
    fn with_found(self, id: &OpId, index: Option<usize>) -> Reach
        ensures reach { (L : List Insert) → IsReachOf self L → index ≡ index_in L id.now
            → IsReachOf result L }
        ensures keeps { (k : ℕ) → IsInReach self k → IsInReach result k }
        ensures has { (k : ℕ) → index ≡ Some k → IsInReach result k }
    {
        match index {
            Some(index) => self.with(id, index),
            None => self,
        }
    }

    // The reach with what the operations of a change name. A look-up for each.
    fn with_named<S: Sequence>(self, sequence: &S, change: &Change) -> Reach
        requires { IsReachOf self (S.placed sequence.now) }
        ensures reach { IsReachOf result (S.placed sequence.now) }
        ensures keeps { (k : ℕ) → IsInReach self k → IsInReach result k }
        ensures has { HasNamed result (S.placed sequence.now) (ops_of change.now) }
    {
        let mut reach = self;
        for op in change.ops() {
            let id = named_by(&op);
            reach = reach.with_found(&id, sequence.index(&id));
        }
        reach
    }

    /// The reach with what the changes outside the past of the hashes name. A look-up for each of their operations, or
    /// none where these are many.
    pub(crate) fn with_outside<S: Sequence>(
        self,
        graph: &Graph,
        sequence: &S,
        heads: &[Hash],
    ) -> Result<Reach, SnapshotError>
        requires { IsReachOf self (S.placed sequence.now) }
        ensures reach { IfOk result (λ r. IsReachOf r (S.placed sequence.now)) }
        ensures keeps { IfOk result (λ r. (k : ℕ) → IsInReach self k → IsInReach r k) }
        ensures has { IfOk result (λ r. HasOutside r (S.placed sequence.now) graph.now.applied
            heads.now (length graph.now.applied)) }
        ensures err { IsOkUnless result OutOfMemory }
    {
        if let Reach::Everything = self {
            return Ok(Reach::Everything);
        }
        match graph.outside(heads, &[]) {
            Ok(outside) => Ok(self.with_each(graph, sequence, &outside)),
            Err(_) => Err(SnapshotError::OutOfMemory),
        }
    }

    // The reach with what each change names that is outside.
    fn with_each<S: Sequence>(self, graph: &Graph, sequence: &S, outside: &Outside) -> Reach
        requires reach { IsReachOf self (S.placed sequence.now) }
        requires outside { (H : List HashOf) × IsOutside graph.now.applied H [] outside.now }
        ensures reach { IsReachOf result (S.placed sequence.now) }
        ensures keeps { (k : ℕ) → IsInReach self k → IsInReach result k }
        ensures has { (H : List HashOf) → IsOutside graph.now.applied H [] outside.now
            → HasOutside result (S.placed sequence.now) graph.now.applied H
            (length graph.now.applied) }
    {
        let changes = graph.changes();
        let mut reach = self;
        let mut left = sequence.all() / ELEMENTS_OF_A_LOOK_UP;
        let mut place = graph.next_outside(outside, 0);
        'changes: while place < changes.len() {
            let change = &changes[place];
            let count = change.op_count();
            if left < count {
                return Reach::Everything;
            }
            left -= count;
            reach = reach.with_named(sequence, change);
            place = graph.next_outside(outside, place + 1);
        }
        reach
    }

    /// The part of all elements that has these.
    pub(crate) fn window<S: Sequence>(&self, sequence: &S) -> Window
        requires { IsReachOf self.now (S.placed sequence.now) }
        ensures window { IsWindowOf result (S.placed sequence.now) (S.removals sequence.now) }
        ensures has { HasReach result self.now (S.placed sequence.now) }
    {
        let all = sequence.all();
        match self {
            Reach::Nothing => Window {
                at: 0,
                from: 0,
                to: 0,
            },
            Reach::Within { first, from, last } => match sequence.position(first) {
                Some(at) => Window {
                    at,
                    from: *from,
                    to: *last + 1,
                },
                None => unreachable!(),
            },
            Reach::Everything => Window {
                at: 0,
                from: 0,
                to: all,
            },
        }
    }
}

impl Window {
    /// A walk from its first element on.
    pub(crate) fn walk(&self) -> Walk
        ensures index { result.index ≡ self.now.from }
        ensures spot { result.spot ≡ None }
    {
        Walk {
            index: self.from,
            spot: None,
        }
    }

    /// Whether some element of the window is deleted.
    pub(crate) fn has_deleted<S: Sequence>(&self, sequence: &S) -> bool
        ensures { result ≡ false
            → NoneDeleted (S.removals sequence.now) (S.placed sequence.now) self.now.from self.now.to }
    {
        let mut walk = self.walk();
        'elements: while walk.index < self.to {
            match sequence.next_element(&mut walk) {
                Some(element) => {
                    if element.deleted {
                        return true;
                    }
                }
                None => return false,
            }
        }
        false
    }
}

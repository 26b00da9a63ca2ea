//! The changes outside a past, found one after another.

ghost use Rattle.std.specs.Prelude.{◌≡◌, ◌<◌, false, length, get_or, IfOk};
ghost use Rattle.std.specs.List.{list_any};
ghost use Rattle.tp_history.specs.Named as named;
ghost use Rattle.tp_ancestry.specs.Outside as outside;
ghost use Rattle.tp_ancestry.specs.Outside.{marked_of, IsNext, IsNextBefore, IsOutside, AreOutsideMarks};

use crate::ancestry::Ancestry;
use crate::past_set::PastSet;
use std::alloc::AllocError;
use tp_opid::Hash;

/// How it is known which of the applied changes are outside a past.
#[derive(Drop)]
pub(crate) enum OutsideMarks {
    /// Those that the past hasn't.
    Beyond(PastSet),
    /// Those that are marked: a mark for each, in applied order.
    Named(Vec<bool>),
}

/// Which of the applied changes are outside a past, or have one of a few hashes besides. It tells of the changes of the
/// graph that made it, as long as none enters.
#[derive(Drop)]
pub struct Outside {
    pub(crate) marked: OutsideMarks,
}

impl OutsideMarks {
    // A place before which no change is outside.
    fn first(&self) -> usize
        ensures { result ≡ outside.first_place_of self.now }
    {
        match self {
            OutsideMarks::Beyond(past_set) => past_set.prefix(),
            OutsideMarks::Named(_) => 0,
        }
    }

    // Whether the change at the place is outside.
    fn has(&self, ancestry: &Ancestry, place: usize) -> bool
        requires marked { AreOutsideMarks self.now ancestry.now.changes }
        requires place { place < length ancestry.now.changes }
        ensures { result ≡ get_or (marked_of self.now ancestry.now.changes) place false }
    {
        match self {
            OutsideMarks::Beyond(past_set) => !past_set.holds(ancestry, place),
            OutsideMarks::Named(marks) => marks[place],
        }
    }
}

impl Ancestry {
    // Whether one of the changes has one of the hashes.
    fn has_any(&self, hashes: &[Hash]) -> bool
        ensures { result ≡ list_any (λ h. named.has self.now.changes h) hashes.now }
    {
        hashes.iter().any(|hash| self.contains(hash))
    }

    /// Which of the changes are outside the past of those of the hashes that are known, or have one of the hashes
    /// `also`. Where no change has one of these, no change is looked at but for the join of the pasts.
    pub fn outside_of(&self, hashes: &[Hash], also: &[Hash]) -> Result<Outside, AllocError>
        ensures { IfOk result (IsOutside self.now.changes hashes.now also.now) }
    {
        if self.has_any(also) {
            return Ok(Outside {
                marked: OutsideMarks::Named(self.marks_since(hashes, also)?),
            });
        }
        Ok(Outside {
            marked: OutsideMarks::Beyond(self.past_set(hashes)?),
        })
    }

    /// The first place from a given one on whose change is outside; the number of the changes, or the place itself
    /// after that, where there is none. A comparison for each place from the prefix of the past on that the past has,
    /// and one for each of its latest places there.
    pub fn next_outside(&self, outside: &Outside, from: usize) -> usize
        requires { AreOutsideMarks outside.now.marked self.now.changes }
        ensures { IsNext (marked_of outside.now.marked self.now.changes) from result }
    {
        self.next_outside_before(outside, from, self.len())
    }

    /// The first place from a given one on, before another, whose change is outside; where there is none, a place that
    /// isn't before that other. It costs what [`next_outside`](Ancestry::next_outside) does, for the places up to that.
    pub fn next_outside_before(&self, outside: &Outside, from: usize, to: usize) -> usize
        requires { AreOutsideMarks outside.now.marked self.now.changes }
        ensures { IsNextBefore (marked_of outside.now.marked self.now.changes) from to result }
    {
        let start = from.max(outside.marked.first());
        let end = to.min(self.len());
        for place in start..end {
            if outside.marked.has(self, place) {
                return place;
            }
        }
        start.max(to)
    }
}

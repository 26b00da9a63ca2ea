//! Changes outside a past.

ghost use Rattle.std.specs.Prelude.{◌≡◌, length, map, not, IfOk};
ghost use Rattle.tp_ancestry.specs.PastSets.{bits, IsPastSetIn};
ghost use Rattle.tp_history.specs.Since.{marks_since, since, skip};

use crate::ancestry::Ancestry;
use crate::past_set::PastSet;
use std::alloc::AllocError;
use tp_change::Change;
use tp_opid::Hash;

impl Ancestry {
    /// The changes outside the past of those of the hashes that are known, in order. Those before a place up to which
    /// the past has every change aren't looked at.
    pub fn changes_since(&self, hashes: &[Hash]) -> Result<Vec<&Change>, AllocError>
        ensures { IfOk result
            (λ v. map (λ c. c.now) v.items ≡ since self.now.changes hashes.now) }
    {
        let past_set = self.past_set(hashes)?;
        self.outside(&past_set)
    }

    // The changes that a past hasn't.
    fn outside(&self, past_set: &PastSet) -> Result<Vec<&Change>, AllocError>
        requires { IsPastSetIn past_set.now self.now.changes }
        ensures { IfOk result (λ v. map (λ c. c.now) v.items
            ≡ skip (bits past_set.now self.now.changes) self.now.changes) }
    {
        let mut found = Vec::new(self.alloc());
        for i in past_set.prefix()..self.len() {
            if !past_set.holds(self, i) {
                found.push(self.at(i))?;
            }
        }
        Ok(found)
    }

    /// For each of the changes, in order, whether it is outside the past of those of the hashes that are known, or has
    /// one of the hashes `also`.
    pub fn marks_since(&self, hashes: &[Hash], also: &[Hash]) -> Result<Vec<bool>, AllocError>
        ensures { IfOk result
            (λ v. v.items ≡ marks_since self.now.changes hashes.now also.now) }
    {
        let past_set = self.past_set(hashes)?;
        let mut marks = self.outside_marks(&past_set)?;
        self.mark(&mut marks, also);
        Ok(marks)
    }

    // For each of the changes, in order, whether a past hasn't it.
    fn outside_marks(&self, past_set: &PastSet) -> Result<Vec<bool>, AllocError>
        requires { IsPastSetIn past_set.now self.now.changes }
        ensures marks { IfOk result (λ v. v.items ≡ map not (bits past_set.now self.now.changes)) }
        ensures len { IfOk result (λ v. length v.items ≡ length self.now.changes) }
    {
        let mut marks = Vec::with_capacity(self.alloc(), self.len())?;
        for i in 0..self.len() {
            marks.push(!past_set.holds(self, i))?;
        }
        Ok(marks)
    }
}

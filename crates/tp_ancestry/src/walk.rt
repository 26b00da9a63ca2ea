//! Look-ups by hash, and the walk back that marks a past.

ghost use Rattle.std.specs.Prelude.{◌≡◌, ◌↔◌, ◌+◌, ◌<◌, [], ◌∷◌, false, length, IsTrue, IfOk};
ghost use Rattle.tp_history.specs.Named as named;
ghost use Rattle.tp_history.specs.Marks.{marks, marked_more, marks_of_walk};

use crate::ancestry::Ancestry;
use std::alloc::AllocError;
use tp_opid::Hash;

impl Ancestry {
    /// Whether one of the changes has the hash.
    pub fn contains(&self, hash: &Hash) -> bool
        ensures { result ≡ named.has self.now.changes hash.now }
    {
        self.place(hash).is_some()
    }

    /// Whether each of the hashes is that of one of the changes.
    pub fn has_all(&self, hashes: &[Hash]) -> bool
        ensures { result ≡ named.has_all self.now.changes hashes.now }
    {
        for hash in hashes {
            if !self.contains(hash) {
                return false;
            }
        }
        true
    }

    // Marks the change with the hash.
    fn mark_one(&self, marks: &mut [bool], hash: &Hash)
        requires { length marks.old ≡ length self.now.changes }
        ensures { marks.new ≡ marked_more (hash.now ∷ []) self.now.changes marks.old }
    {
        let _changes = self.changes();
        if let Some(place) = self.place(hash) {
            marks[place] = true;
        }
    }

    /// Marks the changes with the hashes.
    pub(crate) fn mark(&self, marks: &mut [bool], hashes: &[Hash])
        requires { length marks.old ≡ length self.now.changes }
        ensures { marks.new ≡ marked_more hashes.now self.now.changes marks.old }
    {
        for hash in hashes {
            self.mark_one(marks, hash);
        }
    }

    // Where the change at the place is marked, marks those that it depends on.
    fn follow(&self, marks: &mut [bool], place: usize, hashes: &[Hash])
        requires len { length marks.old ≡ length self.now.changes }
        requires place { place < length self.now.changes }
        requires walked { marks.old ≡ marks_of_walk self.now.changes hashes.now (place + 1) }
        ensures { marks.new ≡ marks_of_walk self.now.changes hashes.now place }
    {
        let _changes = self.changes();
        if marks[place] {
            self.mark(marks, self.at(place).deps());
        }
    }

    /// Marks for the past of the hashes, by one walk back over the changes.
    pub(crate) fn walk_back(&self, hashes: &[Hash]) -> Result<Vec<bool>, AllocError>
        ensures marks { IfOk result (λ v. v.items ≡ marks self.now.changes hashes.now) }
        ensures len { IfOk result (λ v. length v.items ≡ length self.now.changes) }
    {
        let count = self.len();
        let mut marks = vec![in self.alloc(); false; count]?;
        self.mark(&mut marks, hashes);
        for passed in 0..count {
            self.follow(&mut marks, count - 1 - passed, hashes);
        }
        Ok(marks)
    }
}

/// Whether the two lists of hashes are one.
pub fn same_hashes(xs: &[Hash], ys: &[Hash]) -> bool
    ensures { IsTrue result ↔ (xs.now ≡ ys.now) }
{
    if xs.len() != ys.len() {
        return false;
    }
    for i in 0..xs.len() {
        if !xs[i].is(&ys[i]) {
            return false;
        }
    }
    true
}

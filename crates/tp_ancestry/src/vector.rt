//! Version vectors of pasts, kept beside each change: so whether a change is in the past of another is a comparison of
//! places, and no walk.

ghost use Rattle.std.specs.Prelude.{◌≡◌, ℕ, ◌+◌, ◌<◌, ◌≤◌, ◌||◌, [], true, length, take, IsTrue, IfOk, OnOk};
ghost use Rattle.std.specs.Option.{is_some};
ghost use Rattle.std.specs.declared.cmp.Ordering.TheVariants.{Equal};
ghost use Rattle.tp_change.specs.Elements as made;
ghost use Rattle.tp_ancestry.specs.Copies.{IsSameVector};
ghost use Rattle.tp_ancestry.specs.VersionVectors as vectors;
ghost use Rattle.tp_ancestry.specs.VersionVectors.{ArePlaces, IsPlaced, IsVectorOf, IsKnown, HasTaken};

use crate::ancestry::Ancestry;
use std::alloc::{AllocError, Global};
use std::cmp::Ordering;
use tp_opid::Hash;

// How many places a prefix moves on at most, each time that a version vector is made: so a stranger's changes, which
// may each join two long branches, take no more than this. Where a prefix lags, later changes move it on.
const MOST_STEPS: usize = 64;

// How many latest places a version vector has at most while it is made. A past that needs more isn't kept: so a
// stranger's changes can't have more than this kept beside each change, nor make a join of very many heads the square
// of their number.
const MOST_LATEST: usize = 4_096;

/// The version vector of a past, by places: it has all changes before the place `prefix`, and for each change at a place
/// of `latest` those of its actor up to it. An actor's changes depend on each other in turn, so this describes any past.
///
/// A history that is only ever on its heads has no latest places; changes that are concurrent with others have one for
/// each actor with changes in the past after the prefix.
#[derive(Drop)]
pub struct VersionVector {
    pub(crate) prefix: usize,
    pub(crate) latest: Vec<u32>,
}

impl Clone for VersionVector {
    ghost is_clone = { IsSameVector };

    fn clone(&self) -> Result<VersionVector, AllocError> {
        Ok(VersionVector {
            prefix: self.prefix,
            latest: Vec::from_slice(*self.latest.allocator(), self.latest.as_slice())?,
        })
    }
}

// The greater of two places.
fn later_place(x: u32, y: u32) -> u32
    ensures { result ≡ made.later x y }
{
    if x < y { y } else { x }
}

// Takes out the latest places that are before the prefix.
fn take_out_passed(latest: &mut Vec<u32>, ancestry: &Ancestry, prefix: usize)
    requires latest { ArePlaces ancestry.now.changes latest.old.items }
    ensures places { ArePlaces ancestry.now.changes latest.new.items }
    ensures held { (i : ℕ) → vectors.is_held ancestry.now.changes prefix latest.new.items i
        ≡ vectors.is_held ancestry.now.changes prefix latest.old.items i }
{
    latest.retain(|last| prefix <= *last as usize);
}

impl VersionVector {
    /// The version vector of no changes. It takes no memory.
    pub(crate) fn empty(alloc: Global) -> VersionVector
        ensures prefix { result.prefix ≡ 0 }
        ensures latest { result.latest.items ≡ [] }
    {
        VersionVector {
            prefix: 0,
            latest: Vec::new(alloc),
        }
    }

    /// The version vector of the first `count` changes. It takes no memory.
    pub(crate) fn whole(alloc: Global, count: usize) -> VersionVector
        ensures prefix { result.prefix ≡ count }
        ensures latest { result.latest.items ≡ [] }
    {
        VersionVector {
            prefix: count,
            latest: Vec::new(alloc),
        }
    }

    /// Whether the change at the place is in the past: a comparison, and one for each latest place.
    pub(crate) fn holds(&self, ancestry: &Ancestry, place: usize) -> bool
        requires latest { ArePlaces ancestry.now.changes self.now.latest.items }
        requires place { place < length ancestry.now.changes }
        ensures { result
            ≡ vectors.is_held ancestry.now.changes self.now.prefix self.now.latest.items place }
    {
        if place < self.prefix {
            return true;
        }
        ancestry.is_reached(self.latest.as_slice(), place)
    }

    // Puts in the change at the place and its past.
    fn take_in(
        &mut self,
        ancestry: &Ancestry,
        past: &VersionVector,
        place: usize,
    ) -> Result<(), AllocError>
        requires placed { IsPlaced ancestry.now.changes self.old }
        requires past { IsPlaced ancestry.now.changes past.now }
        requires place { place < length ancestry.now.changes }
        ensures placed { OnOk result (IsPlaced ancestry.now.changes self.new) }
        ensures held { OnOk result ((i : ℕ)
            → vectors.is_held ancestry.now.changes self.new.prefix self.new.latest.items i
            ≡ ((vectors.reaches ancestry.now.changes place i
            || vectors.is_held ancestry.now.changes past.now.prefix past.now.latest.items i)
            || vectors.is_held ancestry.now.changes self.old.prefix self.old.latest.items i)) }
    {
        let _count = ancestry.len();
        if self.prefix < past.prefix {
            self.prefix = past.prefix;
        }
        let latest = ancestry.latest_of_both(self.latest.as_slice(), past.latest.as_slice())?;
        self.latest = ancestry.latest_of_both(latest.as_slice(), &[place as u32])?;
        Ok(())
    }

    /// Moves the prefix on, and takes out the latest places that it has passed.
    pub(crate) fn tidy(&mut self, ancestry: &Ancestry)
        requires { IsPlaced ancestry.now.changes self.old }
        ensures placed { IsPlaced ancestry.now.changes self.new }
        ensures held { (i : ℕ)
            → vectors.is_held ancestry.now.changes self.new.prefix self.new.latest.items i
            ≡ vectors.is_held ancestry.now.changes self.old.prefix self.old.latest.items i }
    {
        self.prefix = ancestry.moved_on(self.prefix, self.latest.as_slice());
        take_out_passed(&mut self.latest, ancestry, self.prefix);
    }
}

impl Ancestry {
    // Whether the changes at the two places have one actor.
    fn same_author(&self, i: usize, j: usize) -> bool
        requires { (i < length self.now.changes) × (j < length self.now.changes) }
        ensures { result ≡ vectors.same_author self.now.changes i j }
    {
        self.at(i).actor().is(&self.at(j).actor())
    }

    // How the actors of the changes at the two places compare.
    fn order_of(&self, i: usize, j: usize) -> Ordering
        requires { (i < length self.now.changes) × (j < length self.now.changes) }
        ensures { result ≡ Equal → IsTrue (vectors.same_author self.now.changes i j) }
    {
        self.at(i).actor().order(&self.at(j).actor())
    }

    // Whether the latest place is of the actor of the change at the place, and isn't before it.
    fn reaches(&self, last: usize, place: usize) -> bool
        requires { (last < length self.now.changes) × (place < length self.now.changes) }
        ensures { result ≡ vectors.reaches self.now.changes last place }
    {
        if last < place {
            return false;
        }
        self.same_author(last, place)
    }

    // Whether one of the latest places reaches the place.
    fn is_reached(&self, latest: &[u32], place: usize) -> bool
        requires latest { ArePlaces self.now.changes latest.now }
        requires place { place < length self.now.changes }
        ensures { result ≡ vectors.is_reached self.now.changes latest.now place }
    {
        self.reaching(latest, latest.len(), place).is_some()
    }

    // The number of a latest place that reaches the place, if there is one. The one with the number `first` is looked
    // at before the others: changes of one actor often follow one another.
    fn reaching(&self, latest: &[u32], first: usize, place: usize) -> Option<usize>
        requires latest { ArePlaces self.now.changes latest.now }
        requires place { place < length self.now.changes }
        ensures { is_some result ≡ vectors.is_reached self.now.changes latest.now place }
    {
        if first < latest.len() {
            if self.reaches(latest[first] as usize, place) {
                return Some(first);
            }
        }
        for i in 0..latest.len() {
            if self.reaches(latest[i] as usize, place) {
                return Some(i);
            }
        }
        None
    }

    // Takes the next latest place of the two lists, and says how many of each are taken then: of two that are of one
    // actor the later. Where each list is in the order of its actors, so does what is taken.
    fn take_next(
        &self,
        all: &mut Vec<u32>,
        xs: &[u32],
        ys: &[u32],
        i: usize,
        j: usize,
    ) -> Result<(usize, usize), AllocError>
        requires all { ArePlaces self.now.changes all.old.items }
        requires xs { ArePlaces self.now.changes xs.now }
        requires ys { ArePlaces self.now.changes ys.now }
        requires within { (i ≤ length xs.now) × (j ≤ length ys.now) }
        requires left { i + j < length xs.now + length ys.now }
        ensures all { OnOk result (ArePlaces self.now.changes all.new.items) }
        ensures within { IfOk result
            (λ n. (n.0 ≤ length xs.now) × (n.1 ≤ length ys.now) × (i + j < n.0 + n.1)) }
        ensures reached { IfOk result
            (λ n. (p : ℕ) → vectors.is_reached_by_any self.now.changes xs.now ys.now all.new.items n.0 n.1 p
            ≡ vectors.is_reached_by_any self.now.changes xs.now ys.now all.old.items i j p) }
    {
        if i == xs.len() {
            all.push(ys[j])?;
            return Ok((i, j + 1));
        }
        if j == ys.len() {
            all.push(xs[i])?;
            return Ok((i + 1, j));
        }
        match self.order_of(xs[i] as usize, ys[j] as usize) {
            Ordering::Less => {
                all.push(xs[i])?;
                Ok((i + 1, j))
            }
            Ordering::Greater => {
                all.push(ys[j])?;
                Ok((i, j + 1))
            }
            Ordering::Equal => {
                all.push(later_place(xs[i], ys[j]))?;
                Ok((i + 1, j + 1))
            }
        }
    }

    // The latest places of both lists, one for each actor: as many comparisons as there are latest places. Each list
    // is in the order of its actors, and so does the answer; where they didn't, an actor could keep two latest
    // places, which would only cost time.
    fn latest_of_both(&self, xs: &[u32], ys: &[u32]) -> Result<Vec<u32>, AllocError>
        requires xs { ArePlaces self.now.changes xs.now }
        requires ys { ArePlaces self.now.changes ys.now }
        ensures places { IfOk result (λ all. ArePlaces self.now.changes all.items) }
        ensures reached { IfOk result
            (λ all. (p : ℕ) → vectors.is_reached self.now.changes all.items p
            ≡ (vectors.is_reached self.now.changes xs.now p
            || vectors.is_reached self.now.changes ys.now p)) }
    {
        let mut all = Vec::new(self.alloc());
        all.reserve(xs.len() + ys.len())?;
        let mut i = 0;
        let mut j = 0;
        while i + j < xs.len() + ys.len() {
            let (next_i, next_j) = self.take_next(&mut all, xs, ys, i, j)?;
            i = next_i;
            j = next_j;
        }
        Ok(all)
    }

    // The prefix moved on past places that the latest places reach: a few of them.
    fn moved_on(&self, prefix: usize, latest: &[u32]) -> usize
        requires latest { ArePlaces self.now.changes latest.now }
        requires prefix { prefix ≤ length self.now.changes }
        ensures prefix { result ≤ length self.now.changes }
        ensures held { (i : ℕ) → vectors.is_held self.now.changes result latest.now i
            ≡ vectors.is_held self.now.changes prefix latest.now i }
    {
        let mut next = prefix;
        let mut found = 0;
        for step in 0..MOST_STEPS {
            if next == self.len() {
                return next;
            }
            match self.reaching(latest, found, next) {
                Some(number) => found = number,
                None => return next,
            }
            next += 1;
        }
        next
    }

    /// Puts in the change at the place, and its past. False where its version vector isn't known, or where there are
    /// too many latest places then.
    pub(crate) fn take_change(
        &self,
        vector: &mut VersionVector,
        place: usize,
    ) -> Result<bool, AllocError>
        requires vector { IsPlaced self.now.changes vector.old }
        requires place { place < length self.now.changes }
        ensures { IfOk result (λ known. IsTrue known
            → HasTaken self.now.changes place vector.old vector.new) }
    {
        let _changes = self.changes();
        if let Some(prefix) = self.span_at(place) {
            vector.take_in(self, &VersionVector::whole(self.alloc(), prefix), place)?;
            return Ok(vector.latest.len() <= MOST_LATEST);
        }
        match self.vector_at(place) {
            Some(past) => {
                vector.take_in(self, past, place)?;
                Ok(vector.latest.len() <= MOST_LATEST)
            }
            None => Ok(false),
        }
    }

    // Puts in the past of the hash with the given number. False where its version vector isn't known, or where there
    // are too many latest places then.
    fn take_hash(
        &self,
        vector: &mut VersionVector,
        hashes: &[Hash],
        number: usize,
    ) -> Result<bool, AllocError>
        requires number { number < length hashes.now }
        requires vector { IsVectorOf self.now.changes (take number hashes.now) vector.old }
        ensures { IfOk result (λ known. IsTrue known
            → IsVectorOf self.now.changes (take (number + 1) hashes.now) vector.new) }
    {
        let _changes = self.changes();
        match self.place(&hashes[number]) {
            Some(place) => self.take_change(vector, place),
            None => Ok(true),
        }
    }

    /// The version vector of the past of those of the hashes that are known, joined from those of their changes. None
    /// where one of these isn't known, or where more than 4,096 latest places would be in it.
    pub(crate) fn vector_of(&self, hashes: &[Hash]) -> Result<Option<VersionVector>, AllocError>
        ensures { IfOk result (λ o. IsKnown self.now.changes hashes.now o) }
    {
        let mut vector = VersionVector::empty(self.alloc());
        for number in 0..hashes.len() {
            if !self.take_hash(&mut vector, hashes, number)? {
                return Ok(None);
            }
        }
        vector.tidy(self);
        Ok(Some(vector))
    }
}

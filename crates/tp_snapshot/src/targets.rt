//! What a past deletes.

ghost use Rattle.std.specs.Prelude.{◌≡◌, ◌||◌, List, [], ◌∷◌, length, IfOk, IfSome};
ghost use Rattle.std.specs.List.{AllAdjacentBelow};
ghost use Rattle.tp_opid.specs.Same.{id_eq};
ghost use Rattle.tp_opid.specs.declared.op_id.OpId.{OpId as Id};
ghost use Rattle.tp_change.specs.Elements.{deletes_in};
ghost use Rattle.tp_change.specs.Operations.{ops_of};
ghost use Rattle.tp_rga.specs.Shown.{is_removed};
ghost use Rattle.tp_snapshot.specs.Snapshots.{is_within, is_in_stretches, stretch_cmp, StartsBefore, StretchPrecedes, AreTargets};

use crate::author::Author;
use std::alloc::{AllocError, Global};
use std::cmp::Ordering;
use std::marker::Model;
use tp_change::{Change, Op};
use tp_graph::Clock;
use tp_opid::{Actor, OpId};

/// The elements of one actor from one counter to another, both among them. Deletes come in such stretches: rising where
/// a piece of text is deleted, falling where it is deleted backwards.
#[derive(Clone, Copy, PartialEq, Eq, PartialOrd, Ord)]
struct Stretch {
    actor: Actor,
    low: u64,
    high: u64,
}

impl Stretch {
    // One element.
    fn of(id: &OpId) -> Stretch
        ensures { (x : Id) → is_within result x ≡ id_eq id.now x }
    {
        Stretch {
            actor: id.actor,
            low: id.counter,
            high: id.counter,
        }
    }

    // Whether the element is one of these.
    fn has(&self, id: &OpId) -> bool
        ensures { result ≡ is_within self.now id.now }
    {
        self.low <= id.counter && id.counter <= self.high && self.actor.is(&id.actor)
    }

    // These and the element, where it is one of them or the next to them on either side.
    fn with(&self, id: &OpId) -> Option<Stretch>
        ensures { IfSome result (λ s. (x : Id) → is_within s x ≡ (is_within self.now x || id_eq id.now x)) }
    {
        if self.low.saturating_sub(1) > id.counter || id.counter.saturating_sub(1) > self.high {
            return None;
        }
        if !self.actor.is(&id.actor) {
            return None;
        }
        Some(Stretch {
            actor: self.actor,
            low: self.low.min(id.counter),
            high: self.high.max(id.counter),
        })
    }

    // `Equal` where the element is one of these, else on which side of it they are.
    fn order(&self, id: &OpId) -> Ordering
        ensures { result ≡ stretch_cmp self.now id.now }
    {
        match self.actor.order(&id.actor) {
            Ordering::Equal => {
                if self.high < id.counter {
                    Ordering::Less
                } else if id.counter < self.low {
                    Ordering::Greater
                } else {
                    Ordering::Equal
                }
            }
            other => other,
        }
    }

    // These, and what the stretch before them has after them: it begins no later.
    fn with_raised_end(&self, before: &Stretch) -> Stretch
        requires { StartsBefore before.now self.now }
        ensures start { (result.actor ≡ self.now.actor) × (result.low ≡ self.now.low) }
        ensures order { StretchPrecedes before.now result }
        ensures covers { (x : Id) → (is_within before.now x || is_within result x)
            ≡ (is_within before.now x || is_within self.now x) }
    {
        if before.high <= self.high {
            return *self;
        }
        if before.actor.is(&self.actor) {
            Stretch {
                actor: self.actor,
                low: self.low,
                high: before.high,
            }
        } else {
            *self
        }
    }
}

// Makes the ends rise with the beginnings. What the stretches have together stays the same.
fn raise_ends(stretches: &mut [Stretch])
    requires { AllAdjacentBelow StartsBefore stretches.old (length stretches.old) }
    ensures order { AllAdjacentBelow StretchPrecedes stretches.new (length stretches.new) }
    ensures covers { (x : Id) → is_in_stretches stretches.new x ≡ is_in_stretches stretches.old x }
{
    for i in 1..stretches.len() {
        stretches[i] = stretches[i].with_raised_end(&stretches[i - 1]);
    }
}

/// Elements that are deleted in a past, in stretches that rise: by their actors, and of one actor both by where they
/// begin and by where they end. Those of one actor may overlap.
#[derive(Drop)]
pub(crate) struct Targets {
    stretches: Vec<Stretch>,
}

impl Model for Targets {
    ghost use Rattle.std.specs.Prelude.{List, length};
    ghost use Rattle.std.specs.List.{AllAdjacentBelow};
    ghost use Rattle.tp_snapshot.specs.declared.targets.Stretch.{Stretch};
    ghost use Rattle.tp_snapshot.specs.Snapshots.{StretchPrecedes};

    ghost Value = { List Stretch };

    ghost view = { λ a. a.stretches.items };

    ghost invariant = { λ a. AllAdjacentBelow StretchPrecedes a.stretches.items (length a.stretches.items) };
}

impl Targets {
    /// No elements. No memory.
    pub(crate) fn none(alloc: Global) -> Targets
        ensures { result ≡ [] }
    {
        Targets {
            stretches: Vec::new(alloc),
        }
    }

    /// The elements of these stretches, in whatever order they come. One that comes again is kept once.
    fn new(stretches: Vec<Stretch>) -> Targets
        ensures { (x : Id) → is_in_stretches result x ≡ is_in_stretches stretches.items x }
    {
        let mut stretches = stretches;
        stretches.sort_unstable();
        raise_ends(&mut stretches);
        stretches.dedup();
        Targets { stretches }
    }

    /// Whether the element is one of them. The stretch at a place is asked first, which is then that of the last element
    /// that was found: an element of the same stretch takes no look-up.
    #[inline]
    pub(crate) fn contains(&self, id: &OpId, place: &mut usize) -> bool
        ensures { result ≡ is_in_stretches self.now id.now }
    {
        if let Some(stretch) = self.stretches.get(*place) {
            if stretch.has(id) {
                return true;
            }
        }
        self.find(id, place)
    }

    // Whether the element is one of them. The stretch after the place is asked before the search among all.
    #[inline(never)]
    fn find(&self, id: &OpId, place: &mut usize) -> bool
        ensures { result ≡ is_in_stretches self.now id.now }
    {
        let next = place.saturating_add(1);
        if let Some(following) = self.stretches.get(next) {
            if following.has(id) {
                *place = next;
                return true;
            }
        }
        match self.stretches.binary_search_by(|stretch| stretch.order(id)) {
            Ok(found) => {
                *place = found;
                true
            }
            Err(_) => false,
        }
    }
}

// Adds an element: to the last stretch where it is next to that, else as a stretch of its own.
fn add(stretches: &mut Vec<Stretch>, id: &OpId) -> Result<(), AllocError>
    ensures { IfOk result
        (λ _. (x : Id) → is_in_stretches stretches.new.items x ≡ (is_in_stretches stretches.old.items x || id_eq id.now x)) }
{
    if let Some(last) = stretches.last_mut() {
        if let Some(longer) = last.with(id) {
            *last = longer;
            return Ok(());
        }
    }
    stretches.push(Stretch::of(id))?;
    Ok(())
}

/// The elements that the operations of a clock delete. One pass over all deletes, and a sort of the stretches in which
/// their targets come.
pub(crate) fn targets_of(
    alloc: Global,
    clock: &Clock,
    deletes: &[(OpId, OpId)],
) -> Result<Targets, AllocError>
    ensures { IfOk result (λ targets. AreTargets targets clock.now deletes.now) }
{
    let mut author = Author::of(clock);
    let mut stretches = Vec::new(alloc);
    for delete in deletes {
        if author.has(clock, &delete.1) {
            add(&mut stretches, &delete.0)?;
        }
    }
    Ok(Targets::new(stretches))
}

// Adds what an operation deletes, if it is a delete.
fn add_target(stretches: &mut Vec<Stretch>, op: &Op) -> Result<(), AllocError>
    ensures { IfOk result (λ _. (x : Id) → is_in_stretches stretches.new.items x
        ≡ (is_in_stretches stretches.old.items x || is_removed (deletes_in (op.now ∷ [])) x)) }
{
    match op {
        Op::Insert { .. } => Ok(()),
        Op::Delete { target, .. } => add(stretches, target),
    }
}

/// The elements that a change deletes. One pass over its operations, and a sort of the stretches in which its targets
/// come.
pub(crate) fn targets_in(alloc: Global, change: &Change) -> Result<Targets, AllocError>
    ensures { IfOk result
        (λ targets. (x : Id) → is_in_stretches targets x ≡ is_removed (deletes_in (ops_of change.now)) x) }
{
    let mut stretches = Vec::new(alloc);
    for op in change.ops() {
        add_target(&mut stretches, &op)?;
    }
    Ok(Targets::new(stretches))
}

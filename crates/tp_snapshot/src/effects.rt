//! What a change did to the text that it was made on.

ghost use Rattle.std.specs.Prelude.{◌≡◌, ◌↔◌, ◌&&◌, ◌++◌, [], not, true, false, Err, IfOk, OnOk, encode_utf8, encode_utf8_all, if◌then◌else◌, IsTrue};
ghost use Rattle.tp_opid.specs.declared.op_id.OpId.{OpId as Id};
ghost use Rattle.tp_ancestry.specs.Clocks.{has_op};
ghost use Rattle.tp_history.specs.Named as named;
ghost use Rattle.tp_snapshot.specs.Common.{In, hash_of, string_bytes, is_removed, chars_of};
ghost use Rattle.tp_snapshot.specs.Differences.{differences_from};
ghost use Rattle.tp_snapshot.specs.Effects.{AreElementsOf, IsEffect, is_of_change, is_shown_after, test_after};
ghost use Rattle.tp_snapshot.specs.Snapshots.{is_in_stretches, shown_by, AreTargets};
ghost use Rattle.tp_snapshot.specs.Showing.{DocumentInvariant};
ghost use Rattle.tp_snapshot.specs.Views.{is_in_view};
ghost use Rattle.tp_snapshot.specs.declared.views.View.TheVariants.{At};

use crate::difference_builder::DifferenceBuilder;
use crate::differences::Difference;
use crate::error::SnapshotError;
use crate::snapshot::Snapshot;
use crate::targets::{Targets, targets_in};
use std::alloc::{AllocError, Global};
use tp_change::Change;
use tp_graph::Graph;
use tp_opid::{Actor, Hash, OpId};
use tp_rga::{Seen, Sequence, Walk};

/// What a change did: the text at what it depends on, and the differences that lead from there to the text at the change.
#[derive(Drop)]
pub struct Effect {
    /// The text at what it depends on.
    pub text: String,
    /// What the change did to it.
    pub differences: Vec<Difference>,
}

/// The elements that a change inserts, by its actor and its counters, and those that it deletes.
#[derive(Drop)]
struct ChangeElements {
    actor: Actor,
    start: u64,
    end: u64,
    targets: Targets,
}

impl ChangeElements {
    // Those of a change. One pass over its operations, and a sort of the stretches in which its targets come.
    fn of(alloc: Global, change: &Change) -> Result<ChangeElements, AllocError>
        ensures { IfOk result (AreElementsOf change.now) }
    {
        let targets = targets_in(alloc, change)?;
        Ok(ChangeElements {
            actor: change.actor(),
            start: change.start(),
            end: change.next_start(),
            targets,
        })
    }

    // Whether an operation is one of the change's. An element that has its identifier is one that the change inserts.
    fn has(&self, id: &OpId) -> bool
        ensures { result ≡ is_of_change self.now id.now }
    {
        self.start <= id.counter && id.counter < self.end && self.actor.is(&id.actor)
    }

    // Whether the text at the change shows an element that the text before it shows or doesn't. The place is that of the
    // last target that was found.
    fn shows(&self, element: &Seen, shown: bool, old: &Snapshot, place: &mut usize) -> bool
        requires { shown ≡ (has_op old.now.clock element.now.id
            && not (element.now.deleted && is_in_stretches old.now.targets element.now.id)) }
        ensures { result ≡ test_after old.now self.now element.now }
    {
        if !element.deleted {
            return shown || self.has(&element.id);
        }
        if self.targets.contains(&element.id, place) {
            return false;
        }
        if shown {
            return true;
        }
        let mut first = 0;
        self.has(&element.id) && !old.targets.contains(&element.id, &mut first)
    }
}

// Adds a character that the text shows, and no other.
fn push_shown(text: &mut String, shown: bool, ch: char) -> Result<(), AllocError>
    ensures { OnOk result (string_bytes text.new
        ≡ (if shown then string_bytes text.old ++ encode_utf8 ch else string_bytes text.old)) }
{
    if shown {
        text.push(ch)?;
    }
    Ok(())
}

// The text that a past shows, and the differences from there to what it shows with one change more: one walk over the
// elements.
fn effect_over<S: Sequence>(
    alloc: Global,
    sequence: &S,
    old: &Snapshot,
    change: &ChangeElements,
) -> Result<Effect, AllocError>
    requires old { AreTargets old.now.targets old.now.clock (S.removals sequence.now) }
    requires change { (x : Id) → IsTrue (is_in_stretches change.now.targets x)
        → IsTrue (is_removed (S.removals sequence.now) x) }
    ensures text { IfOk result (λ m. string_bytes m.text
        ≡ encode_utf8_all (chars_of
        (shown_by old.now.clock (S.removals sequence.now) (S.placed sequence.now)))) }
    ensures differences { IfOk result (λ m. m.differences.items
        ≡ differences_from (is_in_view (At old.now) (S.removals sequence.now))
        (is_shown_after old.now.clock (S.removals sequence.now) change.now) 0 0 []
        (S.placed sequence.now)) }
{
    let _all = sequence.all();
    let mut text = String::new(alloc);
    let mut builder = DifferenceBuilder::new(alloc, 0);
    let mut walk = Walk::start();
    let mut trail = old.trail();
    let mut place = 0usize;
    while let Some(element) = sequence.next_element(&mut walk) {
        let shown = old.shows(&element, &mut trail);
        let shows = change.shows(&element, shown, old, &mut place);
        push_shown(&mut text, shown, element.ch)?;
        builder.take(shown, shows, element.ch)?;
    }
    let differences = builder.finish()?;
    Ok(Effect { text, differences })
}

// What an applied change did. What it depends on is there, so only memory can fail.
fn effect_of_change<S: Sequence>(
    alloc: Global,
    graph: &Graph,
    sequence: &S,
    change: &Change,
) -> Result<Effect, SnapshotError>
    requires holds { DocumentInvariant graph.now.applied (S.placed sequence.now) (S.removals sequence.now) }
    requires there { In change.now graph.now.applied }
    ensures { IfOk result (IsEffect graph.now.applied (hash_of change.now)) }
{
    let old = Snapshot::at(alloc, graph, sequence, change.deps())?;
    let elements = ChangeElements::of(alloc, change)?;
    Ok(effect_over(alloc, sequence, &old, &elements)?)
}

/// What the applied change with the hash did: the text at what it depends on, and the differences from there to the text
/// at the change, as [`differences_between`](crate::differences_between) gives them. A hash that no applied change has is
/// refused as `UnknownHead`, and the only other refusal is `OutOfMemory`.
///
/// Both come of one walk over the elements, and one walk over all deletes. So the cost is that of [`Snapshot::at`] and
/// [`Snapshot::text`], and beside it one pass over the operations of the change, and for each element that is deleted now
/// a look-up among the stretches of elements that the change deletes.
pub fn effect_of<S: Sequence>(
    alloc: Global,
    graph: &Graph,
    sequence: &S,
    hash: &Hash,
) -> Result<Effect, SnapshotError>
    requires { DocumentInvariant graph.now.applied (S.placed sequence.now) (S.removals sequence.now) }
    ensures effect { IfOk result (IsEffect graph.now.applied hash.now) }
    ensures unknown { (result ≡ Err SnapshotError.UnknownHead)
        ↔ (named.has graph.now.applied hash.now ≡ false) }
{
    let Some(change) = graph.get(hash) else {
        return Err(SnapshotError::UnknownHead);
    };
    match effect_of_change(alloc, graph, sequence, change) {
        Ok(effect) => Ok(effect),
        Err(_) => Err(SnapshotError::OutOfMemory),
    }
}

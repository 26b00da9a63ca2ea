//! What changed between the text at one time and at another.

ghost use Rattle.std.specs.Prelude.{◌≡◌, ◌↔◌, ◌⊎◌, [], false, Err, IfOk, IsTrue};
ghost use Rattle.tp_snapshot.specs.Common.{past};
ghost use Rattle.tp_snapshot.specs.Showing.{DocumentInvariant};
ghost use Rattle.tp_edit.specs.Splices.{inserted_chars};
ghost use Rattle.tp_history.specs.Named as named;
ghost use Rattle.tp_snapshot.specs.Views.{is_in_view};
ghost use Rattle.tp_snapshot.specs.Windows.{part_of, IsWindowOf, TellsOf};
ghost use Rattle.tp_snapshot.specs.declared.views.View.TheVariants.{At};
ghost use Rattle.tp_snapshot.specs.Differences.{differences_from, AreDifferences, LeadsTo};

use crate::difference_builder::DifferenceBuilder;
use crate::error::SnapshotError;
use crate::snapshot::{Snapshot, clock_of};
use crate::targets::{Targets, targets_of};
use crate::views::View;
use crate::window::{Reach, Window};
use std::alloc::{AllocError, Global};
use tp_edit::Splice;
use tp_graph::{Clock, Graph};
use tp_list::Text;
use tp_opid::Hash;
use tp_rga::Sequence;

/// One replacement in a text: some characters go, and others come in their place. Positions and lengths count
/// characters (Unicode scalar values).
#[derive(Drop)]
pub struct Difference {
    /// How many characters are before it, in the text that the differences before it leave.
    pub at: usize,
    /// How many characters go.
    pub del: usize,
    /// What comes in their place, which may be empty.
    pub text: Text,
}

impl Difference {
    /// The difference as the splice of an edit, whose text is borrowed. No memory.
    pub fn splice(&self) -> Splice<'_>
        ensures at { result.at ≡ self.now.at }
        ensures del { result.del ≡ self.now.del }
        ensures text { inserted_chars result ≡ self.now.text }
    {
        Splice {
            at: self.at,
            del: self.del,
            text: self.text.as_str(),
        }
    }
}

// What a past shows of the elements of a window. Its deletes are gone over only where some element there is deleted.
fn snapshot_within<S: Sequence>(
    alloc: Global,
    sequence: &S,
    clock: Clock,
    window: &Window,
) -> Result<Snapshot, AllocError>
    ensures clock { IfOk result (λ s. s.clock ≡ clock) }
    ensures tells { IfOk result
        (λ s. TellsOf (At s) (S.removals sequence.now) (S.placed sequence.now) window.now) }
{
    if window.has_deleted(sequence) {
        let targets = targets_of(alloc, &clock, sequence.deletes())?;
        return Ok(Snapshot { clock, targets });
    }
    let targets = Targets::none(alloc);
    Ok(Snapshot { clock, targets })
}

// The differences between what a past shows and what a view does, where they show the same of all elements outside the
// window: one walk over the window.
fn differences_over<S: Sequence>(
    alloc: Global,
    sequence: &S,
    old: &Snapshot,
    new: &View,
    window: &Window,
) -> Result<Vec<Difference>, AllocError>
    requires window { IsWindowOf window.now (S.placed sequence.now) (S.removals sequence.now) }
    requires old { TellsOf (At old.now) (S.removals sequence.now) (S.placed sequence.now) window.now }
    requires new { TellsOf new.now (S.removals sequence.now) (S.placed sequence.now) window.now }
    ensures { IfOk result (λ all. all.items
        ≡ differences_from (is_in_view (At old.now) (S.removals sequence.now))
        (is_in_view new.now (S.removals sequence.now)) window.now.at 0 []
        (part_of window.now (S.placed sequence.now))) }
{
    let _all = sequence.all();
    let mut builder = DifferenceBuilder::new(alloc, window.at);
    let mut walk = window.walk();
    let mut old_trail = old.trail();
    let mut new_trail = new.trail(old_trail);
    'elements: while walk.index < window.to {
        let element = match sequence.next_element(&mut walk) {
            Some(element) => element,
            None => unreachable!(),
        };
        let shown = old.shows(&element, &mut old_trail);
        let shows = new.shows(&element, &mut new_trail);
        builder.take(shown, shows, element.ch)?;
    }
    builder.finish()
}

/// The differences that lead from the text of the past of some hashes to that of others, which need be no later.
/// The hashes may come in any order and more than once, and no hash gives the empty text. Done one after another,
/// as the splices of one edit are, they make the new text of the old one. They are exact: no difference touches a
/// character that both texts show, each changes something, and between two there is a character at least that both
/// show.
///
/// A hash that no applied change has is refused as `UnknownHead`, and the only other refusal is `OutOfMemory`.
///
/// The pasts are asked for the last change of each actor, as by [`Snapshot::at`]. Each element that a change outside
/// either past names is looked up; then comes one walk from the first to the last of these, deleted ones among them. Only
/// where one that it passes is deleted now, there is one walk over all deletes for each past. Where the changes outside
/// are numerous enough that a look-up of each element would take longer, the walk goes over all elements. Memory is taken for the
/// differences, the actors and the deletes.
pub fn differences_between<S: Sequence>(
    alloc: Global,
    graph: &Graph,
    sequence: &S,
    from: &[Hash],
    to: &[Hash],
) -> Result<Vec<Difference>, SnapshotError>
    requires { DocumentInvariant graph.now.applied (S.placed sequence.now) (S.removals sequence.now) }
    ensures each { IfOk result (λ all. AreDifferences graph.now.applied
        (past graph.now.applied from.now) (past graph.now.applied to.now) all.items) }
    ensures leads { IfOk result (λ all. LeadsTo (past graph.now.applied from.now)
        (past graph.now.applied to.now) all.items) }
    ensures unknown { result ≡ Err SnapshotError.UnknownHead
        → (named.has_all graph.now.applied from.now ≡ false)
        ⊎ (named.has_all graph.now.applied to.now ≡ false) }
    ensures known { IfOk result (λ _. IsTrue (named.has_all graph.now.applied from.now)
        × IsTrue (named.has_all graph.now.applied to.now)) }
{
    let old_clock = clock_of(graph, from)?;
    let new_clock = clock_of(graph, to)?;
    let near = Reach::Nothing.with_outside(graph, sequence, from)?;
    let reach = near.with_outside(graph, sequence, to)?;
    let window = reach.window(sequence);
    let old = snapshot_within(alloc, sequence, old_clock, &window)?;
    let new = snapshot_within(alloc, sequence, new_clock, &window)?;
    let found = differences_over(alloc, sequence, &old, &View::At(new), &window)?;
    Ok(found)
}

/// The differences that lead from the text of the past of the hashes to the text now, as those of
/// [`differences_between`] do. A hash that no applied change has is refused as `UnknownHead`, and the only other refusal
/// is `OutOfMemory`.
pub fn differences_since<S: Sequence>(
    alloc: Global,
    graph: &Graph,
    sequence: &S,
    heads: &[Hash],
) -> Result<Vec<Difference>, SnapshotError>
    requires { DocumentInvariant graph.now.applied (S.placed sequence.now) (S.removals sequence.now) }
    ensures each { IfOk result (λ all. AreDifferences graph.now.applied
        (past graph.now.applied heads.now) graph.now.applied all.items) }
    ensures leads { IfOk result (λ all. LeadsTo (past graph.now.applied heads.now)
        graph.now.applied all.items) }
    ensures unknown { (result ≡ Err SnapshotError.UnknownHead)
        ↔ (named.has_all graph.now.applied heads.now ≡ false) }
{
    let clock = clock_of(graph, heads)?;
    let reach = Reach::Nothing.with_outside(graph, sequence, heads)?;
    let window = reach.window(sequence);
    let old = snapshot_within(alloc, sequence, clock, &window)?;
    let found = differences_over(alloc, sequence, &old, &View::Now, &window)?;
    Ok(found)
}

//! What a past shows of the elements of a text.

ghost use Rattle.std.specs.Prelude.{◌≡◌, ◌↔◌, ◌≤◌, ◌&&◌, not, false, take, length, Err, IfOk, encode_utf8_all};
ghost use Rattle.tp_snapshot.specs.Common.{slice_get, option_map, string_bytes, past, visible_before, chars_of};
ghost use Rattle.tp_history.specs.Named as named;
ghost use Rattle.tp_ancestry.specs.Clocks.{has_op, IsClockOf};
ghost use Rattle.tp_snapshot.specs.Snapshots.{is_in_stretches, shown_by, deletes_by, inserts_by, AreTargets, IsAuthorOf};

use crate::author::Author;
use crate::error::SnapshotError;
use crate::targets::{Targets, targets_of};
use std::alloc::{AllocError, Global};
use tp_graph::{Clock, Graph, GraphError};
use tp_opid::{Hash, OpId};
use tp_rga::{Seen, Sequence, Walk};

/// What a past shows of the elements: those that it inserts and doesn't delete.
#[derive(Drop)]
pub struct Snapshot {
    pub(crate) clock: Clock,
    pub(crate) targets: Targets,
}

/// What is kept from one element of a walk to the next, so that most take no look-up: who inserted it, and the place of
/// the targets' stretch that has it, where it is one.
#[derive(Clone, Copy)]
pub(crate) struct Trail {
    author: Author,
    place: usize,
}

/// The operations of the past of the hashes. A hash that no applied change has is refused as `UnknownHead`, and the only
/// other refusal is `OutOfMemory`.
pub(crate) fn clock_of(graph: &Graph, heads: &[Hash]) -> Result<Clock, SnapshotError>
    ensures clock { IfOk result (λ clock. IsClockOf clock (past graph.now.applied heads.now)) }
    ensures unknown { (result ≡ Err SnapshotError.UnknownHead)
        ↔ (named.has_all graph.now.applied heads.now ≡ false) }
{
    match graph.clock(heads) {
        Ok(clock) => Ok(clock),
        Err(GraphError::UnknownHead) => Err(SnapshotError::UnknownHead),
        Err(_) => Err(SnapshotError::OutOfMemory),
    }
}

impl Snapshot {
    /// What the past of the hashes shows. The hashes may come in any order and more than once. A hash that no applied
    /// change has is refused as `UnknownHead`, and the only other refusal is `OutOfMemory`.
    ///
    /// No change is walked over: the past is asked for the last change of each actor
    /// ([`Graph::clock`](tp_graph::Graph::clock)); then comes one walk over all deletes.
    pub fn at<S: Sequence>(
        alloc: Global,
        graph: &Graph,
        sequence: &S,
        heads: &[Hash],
    ) -> Result<Snapshot, SnapshotError>
        ensures ends { IfOk result (λ s. IsClockOf s.clock (past graph.now.applied heads.now)) }
        ensures targets { IfOk result (λ s. AreTargets s.targets s.clock (S.removals sequence.now)) }
        ensures unknown { (result ≡ Err SnapshotError.UnknownHead)
            ↔ (named.has_all graph.now.applied heads.now ≡ false) }
    {
        let clock = clock_of(graph, heads)?;
        let targets = targets_of(alloc, &clock, sequence.deletes())?;
        Ok(Snapshot { clock, targets })
    }

    /// Where no element was asked for.
    pub(crate) fn trail(&self) -> Trail
        ensures { IsAuthorOf self.now.clock result.author }
    {
        Trail {
            author: Author::of(&self.clock),
            place: 0,
        }
    }

    /// Whether the past shows an element. One that isn't deleted now wasn't in any past: only others are looked for among
    /// what the past deletes. One that is found there needs no look-up of its author.
    pub(crate) fn shows(&self, element: &Seen, trail: &mut Trail) -> bool
        requires { IsAuthorOf self.now.clock trail.old.author }
        ensures trail { IsAuthorOf self.now.clock trail.new.author }
        ensures shown { result ≡ (has_op self.now.clock element.now.id
            && not (element.now.deleted && is_in_stretches self.now.targets element.now.id)) }
    {
        if !element.deleted {
            return trail.author.has(&self.clock, &element.id);
        }
        if trail.author.lacks(&self.clock, &element.id) {
            return false;
        }
        if self.targets.contains(&element.id, &mut trail.place) {
            return false;
        }
        trail.author.has(&self.clock, &element.id)
    }

    /// The text: one walk over the elements, deleted ones among them. Each takes a look-up among the actors, and one that
    /// is deleted now one more among the stretches of elements that the past deletes.
    pub fn text<S: Sequence>(&self, alloc: Global, sequence: &S) -> Result<String, AllocError>
        requires { AreTargets self.now.targets self.now.clock (S.removals sequence.now) }
        ensures { IfOk result (λ text. string_bytes text
            ≡ encode_utf8_all (chars_of
            (shown_by self.now.clock (S.removals sequence.now) (S.placed sequence.now)))) }
    {
        let mut text = String::new(alloc);
        let mut walk = Walk::start();
        let mut trail = self.trail();
        while let Some(element) = sequence.next_element(&mut walk) {
            if self.shows(&element, &mut trail) {
                text.push(element.ch)?;
            }
        }
        Ok(text)
    }

    /// The element at a position of the text, from 0; `None` past its end. One walk over the elements up to it.
    pub fn id_at<S: Sequence>(&self, sequence: &S, at: usize) -> Option<OpId>
        requires { AreTargets self.now.targets self.now.clock (S.removals sequence.now) }
        ensures { result ≡ option_map (λ e. e.id)
            (slice_get (shown_by self.now.clock (S.removals sequence.now) (S.placed sequence.now)) at) }
    {
        let mut left = at;
        let mut walk = Walk::start();
        let mut trail = self.trail();
        while let Some(element) = sequence.next_element(&mut walk) {
            if self.shows(&element, &mut trail) {
                if left == 0 {
                    return Some(element.id);
                }
                left -= 1;
            }
        }
        None
    }

    // How many of the elements before an index are shown: one walk over these.
    fn count_before<S: Sequence>(&self, sequence: &S, end: usize) -> usize
        requires { AreTargets self.now.targets self.now.clock (S.removals sequence.now) }
        ensures { result ≡ length
            (shown_by self.now.clock (S.removals sequence.now) (take end (S.placed sequence.now))) }
    {
        let mut count = 0usize;
        let mut walk = Walk::start();
        let mut trail = self.trail();
        'elements: while walk.index < end {
            let Some(element) = sequence.next_element(&mut walk) else {
                return count;
            };
            if self.shows(&element, &mut trail) {
                count += 1;
            }
        }
        count
    }

    /// How many characters (Unicode scalar values) the text has: one walk over the elements.
    pub fn len<S: Sequence>(&self, sequence: &S) -> usize
        requires { AreTargets self.now.targets self.now.clock (S.removals sequence.now) }
        ensures { result ≡ length
            (shown_by self.now.clock (S.removals sequence.now) (S.placed sequence.now)) }
    {
        self.count_before(sequence, sequence.all())
    }

    /// How many characters of the text are before an element, which may be deleted there; `None` where the past doesn't
    /// insert it. One walk over the elements up to that one.
    pub fn position<S: Sequence>(&self, sequence: &S, id: &OpId) -> Option<usize>
        requires { AreTargets self.now.targets self.now.clock (S.removals sequence.now) }
        ensures { result ≡ visible_before (deletes_by self.now.clock (S.removals sequence.now))
            (inserts_by self.now.clock (S.placed sequence.now)) id.now }
    {
        if !self.clock.has(id) {
            return None;
        }
        match sequence.index(id) {
            Some(index) => Some(self.count_before(sequence, index)),
            None => None,
        }
    }
}

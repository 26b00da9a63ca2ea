//! Whether a change can enter after applied changes.

ghost use Rattle.std.specs.Prelude.{◌≡◌, if◌then◌else◌, Err, IfOk};
ghost use Rattle.tp_change.specs.Elements as made;
ghost use Rattle.tp_graph.specs.Causes.{MatchesCause, TakesMemory};
ghost use Rattle.tp_history.specs.ByActor.{ArePlacesBy};
ghost use Rattle.tp_ancestry.specs.Deps.{IsBehind};
ghost use Rattle.tp_history.specs.Fit as fit;
ghost use Rattle.tp_history.specs.Heads as head;
ghost use Rattle.tp_history.specs.Named as named;
ghost use Rattle.tp_ancestry.specs.PastSets.{past_changes, IsPastSetIn, IsPastSetOf};
ghost use Rattle.tp_history.specs.Past.{past};
ghost use Rattle.tp_history.specs.Sound.{Sound};

use crate::applied::Applied;
use tp_ancestry::{Behind, PastSet};
use tp_change::Change;
use tp_history::{ActorChanges, GraphError, MOST_CHANGES};
use tp_opid::Hash;

impl Applied {
    // The numbers and references of the change after its past, where one that fits starts at `start`. Its actor's
    // changes are at these places.
    #[tactic(auto, unfolding(tp_history::specs::Fit::defect_after))]
    fn check_after(
        &self,
        past_set: &PastSet,
        own: &ActorChanges<'_>,
        start: u64,
        change: &Change,
    ) -> Result<(), GraphError>
        requires own { ArePlacesBy self.now.changes change.now.actor own.now }
        requires past_set { IsPastSetIn past_set.now self.now.changes }
        requires past { Sound (past_changes past_set.now self.now.changes) }
        requires start { start ≡ made.next_counter (past_changes past_set.now self.now.changes) }
        ensures answers { MatchesCause result
            (fit.defect_after (past_changes past_set.now self.now.changes) change.now) }
        ensures memory { result ≡ Err GraphError.OutOfMemory → ⊥ }
    {
        let _changes = self.changes();
        if change.seq() != self.ancestry().count_in(past_set, own) + 1 {
            return Err(GraphError::BadSeq);
        }
        if change.start() != start {
            return Err(GraphError::BadStart);
        }
        if !self.refers(past_set, change) {
            return Err(GraphError::BadReference);
        }
        Ok(())
    }

    // The numbers and references of the change after the past of its dependencies; this past, where they are right.
    fn check_past(
        &self,
        beyond: Behind,
        own: &ActorChanges<'_>,
        change: &Change,
    ) -> Result<PastSet, GraphError>
        requires own { ArePlacesBy self.now.changes change.now.actor own.now }
        requires beyond { IsBehind self.now.changes change.now.deps beyond }
        ensures answers { MatchesCause result
            (fit.defect_after (past self.now.changes change.now.deps) change.now) }
        ensures past_set { IfOk result (λ past_set. IsPastSetOf past_set self.now.changes change.now.deps) }
        ensures memory { result ≡ Err GraphError.OutOfMemory
            → change.now.deps ≡ head.heads self.now.changes → ⊥ }
    {
        let _changes = self.changes();
        let Behind { start, past } = beyond;
        let past_set = self.ancestry().past_set_of(change.deps(), past)?;
        self.check_after(&past_set, own, start, change)?;
        Ok(past_set)
    }

    // Whether one of the changes has the actor and the sequence number of the change: whether its actor, whose changes
    // are at these places, has reached that number.
    fn clashes(&self, own: &ActorChanges<'_>, change: &Change) -> bool
        requires { ArePlacesBy self.now.changes change.now.actor own.now }
        ensures { result ≡ fit.clashes self.now.changes change.now }
    {
        let _changes = self.changes();
        let _hash = change.hash();
        change.seq() <= own.len() as u64
    }

    // What a refused growth is reported as: where a dependency is missing, that is the cause.
    fn growth_refusal(&self, deps: &[Hash]) -> GraphError
        ensures { result ≡ (if named.has_all self.now.changes deps.now then GraphError.OutOfMemory else GraphError.MissingDeps) }
    {
        if self.ancestry().has_all(deps) {
            GraphError::OutOfMemory
        } else {
            GraphError::MissingDeps
        }
    }

    /// Why the change can't enter after the changes, or `OutOfMemory`; the past of its dependencies, where it can.
    /// Where these are the heads none of them is looked up, and else each is once. Only where the version vector of
    /// their past isn't known, or a growth is refused, are they looked up anew.
    #[tactic(auto, unfolding(tp_history::specs::Fit::defect, tp_history::specs::Fit::cause))]
    pub(crate) fn judge(&self, change: &Change) -> Result<PastSet, GraphError>
        ensures answers { MatchesCause result (fit.cause self.now.changes change.now) }
        ensures past_set { IfOk result (λ past_set. IsPastSetOf past_set self.now.changes change.now.deps) }
        ensures memory { result ≡ Err GraphError.OutOfMemory
            → TakesMemory self.now.changes change.now }
    {
        let ancestry = self.ancestry();
        if ancestry.contains(&change.hash()) {
            return Err(GraphError::Known);
        }
        let beyond = match ancestry.beyond(change.deps()) {
            Ok(Some(beyond)) => beyond,
            Ok(None) => return Err(GraphError::MissingDeps),
            Err(_) => return Err(self.growth_refusal(change.deps())),
        };
        let own = ancestry.changes_by(&change.actor());
        let past_set = self.check_past(beyond, &own, change)?;
        if self.clashes(&own, change) {
            return Err(GraphError::SeqClash);
        }
        if ancestry.len() == MOST_CHANGES {
            return Err(GraphError::Full);
        }
        Ok(past_set)
    }

    /// Whether the change can enter.
    pub(crate) fn check(&self, change: &Change) -> Result<(), GraphError>
        ensures answers { MatchesCause result (fit.cause self.now.changes change.now) }
        ensures memory { result ≡ Err GraphError.OutOfMemory
            → TakesMemory self.now.changes change.now }
    {
        self.judge(change)?;
        Ok(())
    }
}

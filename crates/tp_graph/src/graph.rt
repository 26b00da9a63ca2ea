//! The graph: applied changes in order, and changes that wait.

ghost use Rattle.std.specs.Prelude.{◌≡◌, ◌↔◌, ◌⊎◌, ◌+◌, ◌<◌, ◌≤◌, List, [], ◌∷◌, ◌++◌, false, length, map, Some, None, is_ok, if◌then◌else◌, MatchOption, MatchResult, IfErr, IfOk, IsOkUnless, OnOk, OnErr};
ghost use Rattle.std.specs.List.{slice_get, remove};
ghost use Rattle.tp_list.specs.Members.{In};
ghost use Rattle.tp_layout.specs.declared.parts.ChangeParts.{ChangeParts};
ghost use Rattle.tp_change.specs.ChangeHash.{hash_of};
ghost use Rattle.tp_change.specs.Elements as made;
ghost use Rattle.tp_history.specs.Named as named;
ghost use Rattle.tp_history.specs.Heads as head;
ghost use Rattle.tp_ancestry.specs.Clocks.{IsClockOf};
ghost use Rattle.tp_history.specs.Past.{past};
ghost use Rattle.tp_history.specs.Fit as fit;
ghost use Rattle.tp_history.specs.Fit.{cause, most_changes};
ghost use Rattle.tp_history.specs.Places.{place_from};
ghost use Rattle.tp_history.specs.Sound.{Sound};
ghost use Rattle.tp_graph.specs.Causes.{MatchesCause, IsCause, TakesMemory};
ghost use Rattle.tp_graph.specs.GraphState.{most_waiting};
ghost use Rattle.tp_history.specs.Named.{HashesOnce};
ghost use Rattle.tp_ancestry.specs.Outside.{IsNext, IsNextBefore, IsOutside};
ghost use Rattle.tp_history.specs.Since.{marks_since, past_places, since};
ghost use Rattle.tp_graph.specs.Waiting.{IsMissing};
ghost use Rattle.tp_list.specs.Rising.{IsRising};
ghost use Rattle.tp_opid.specs.Order.{hash_cmp};
ghost use Rattle.tp_opid.specs.declared.hash.Hash.{Hash};

use crate::applied::Applied;
use crate::copies::copies_of;
use crate::missing::{has, missing};
use crate::past::{Past, places_in};
use std::alloc::{AllocError, Global};
use std::marker::Model;
use tp_ancestry::{Clock, Outside};
use tp_change::Change;
use tp_history::GraphError;
use tp_opid::{Actor, Hash};

/// Changes by hash: those that are applied, in the order in which they entered, and those that wait for others.
///
/// Contracts see the two lists, and for which change room was made. Heads, counters, and places by hash and by actor
/// are kept beside them. A look-up of a hash comes by one or two slots of a table, mostly, and by 32 at most; where
/// strangers choose the hashes, it then takes as many comparisons as the logarithm of the number of changes, as one of
/// an actor does.
pub struct Graph {
    applied: Applied,
    waiting: Vec<Change>,
}

impl Drop for Graph {
    fn drop(self) {
        let Graph {
            applied: _,
            waiting: _,
        } = self;
    }
}

impl Model for Graph {
    ghost use Rattle.tp_graph.specs.GraphState.{GraphState, IsWaiting};

    ghost Value = { GraphState };

    ghost view = { λ g. record { applied = g.applied.changes; waiting = g.waiting.items; room = g.applied.room } };

    ghost invariant = { λ g. IsWaiting g.waiting.items };
}

/// A change that was refused, and why.
#[derive(Drop)]
pub struct Rejected {
    /// The change, given back.
    pub change: Change,
    /// Why it was refused.
    pub error: GraphError,
}

impl Graph {
    /// A graph with no changes. It takes no memory.
    pub fn new(alloc: Global) -> Graph
        ensures applied { result.applied ≡ [] }
        ensures waiting { result.waiting ≡ [] }
        ensures room { result.room ≡ None }
    {
        Graph {
            applied: Applied::new(alloc),
            waiting: Vec::new(alloc),
        }
    }

    /// A graph with copies of the applied changes, in their order; nothing waits in it, and it is made ready for no
    /// change. The only refusal is that memory is short.
    ///
    /// The changes are copied one by one, and what is kept beside them as it is: nothing is judged and no past is
    /// joined. It takes as much memory as what the graph holds, without what waits: the lists with an entry for each
    /// change have room for an eighth more, and up to four, and the others for none.
    pub fn copy(&self) -> Result<Graph, AllocError>
        ensures applied { IfOk result (λ g. g.applied ≡ self.now.applied) }
        ensures waiting { IfOk result (λ g. g.waiting ≡ []) }
        ensures room { IfOk result (λ g. g.room ≡ None) }
    {
        Ok(Graph {
            applied: self.applied.copy()?,
            waiting: Vec::new(self.applied.ancestry().alloc()),
        })
    }

    /// The applied changes, in the order in which they entered: dependencies come before dependents. At most
    /// 4,294,967,295.
    pub fn changes(&self) -> &[Change]
        ensures changes { result.now ≡ self.now.applied }
        ensures sound { Sound self.now.applied }
        ensures few { length self.now.applied ≤ most_changes }
    {
        self.applied.changes()
    }

    /// The changes that wait, in the order in which they came: at most 1,024, no two with one hash.
    pub fn pending(&self) -> &[Change]
        ensures pending { result.now ≡ self.now.waiting }
        ensures few { length self.now.waiting ≤ most_waiting }
        ensures once { HashesOnce self.now.waiting }
    {
        self.waiting.as_slice()
    }

    /// Whether a waiting change has the hash. One pass over them.
    pub fn waits(&self, hash: &Hash) -> bool
        ensures { result ≡ named.has self.now.waiting hash.now }
    {
        has(self.waiting.as_slice(), hash)
    }

    /// The hashes of the applied changes on which no applied change depends, rising.
    pub fn heads(&self) -> &[Hash]
        ensures { result.now ≡ head.heads self.now.applied }
    {
        self.applied.ancestry().heads()
    }

    /// The place in applied order, from 0, of the change with the hash.
    pub fn place(&self, hash: &Hash) -> Option<usize>
        ensures { result ≡ place_from 0 self.now.applied hash.now }
    {
        self.applied.ancestry().place(hash)
    }

    /// Whether an applied change has the hash.
    pub fn contains(&self, hash: &Hash) -> bool
        ensures { result ≡ named.has self.now.applied hash.now }
    {
        self.applied.ancestry().contains(hash)
    }

    /// The applied change with the hash.
    pub fn get(&self, hash: &Hash) -> Option<&Change>
        ensures { MatchOption result (named.has self.now.applied hash.now ≡ false)
            (λ change. In change.now self.now.applied × (hash_of change.now ≡ hash.now)) }
    {
        let ancestry = self.applied.ancestry();
        match ancestry.place(hash) {
            Some(place) => Some(ancestry.at(place)),
            None => None,
        }
    }

    /// The counter of the next operation: one more than the greatest counter of the applied changes, or 1 where
    /// there are none. It is kept.
    pub fn next_counter(&self) -> u64
        ensures { result ≡ made.next_counter self.now.applied }
    {
        self.applied.ancestry().next_counter()
    }

    /// How many of the applied changes the actor made. A number of comparisons that grows with the logarithm of the
    /// number of applied changes.
    pub fn count_by(&self, actor: &Actor) -> u64
        ensures { result ≡ fit.count_by actor.now self.now.applied }
    {
        self.applied.ancestry().changes_by(actor).len() as u64
    }

    /// Whether the change can enter: `Ok`, or why not. `OutOfMemory` comes only where the change isn't known, its
    /// dependencies are all applied, and they aren't the heads: else it takes no memory.
    ///
    /// Where the dependencies are the heads none of them is looked up: for each reference a number of comparisons that
    /// grows with the logarithm of the number of applied changes, and the records of the changes that are referred to.
    /// Elsewhere each dependency is looked up twice, and the pasts of the dependencies are joined, by what is kept
    /// beside their changes: a comparison for each actor with changes in them after the prefix that they share, for
    /// each dependency and each reference. Only where there are more than 4,096 such actors are the applied changes
    /// walked back over, with a byte for each.
    pub fn check(&self, change: &Change) -> Result<(), GraphError>
        ensures answers { MatchesCause result (cause self.now.applied change.now) }
        ensures memory { result ≡ Err GraphError.OutOfMemory
            → TakesMemory self.now.applied change.now }
    {
        self.applied.check(change)
    }

    /// Makes every growth that the entry of a change takes that can enter, so that [`enter`](Graph::enter) takes no
    /// memory. What a caller sees stays as it was. The change isn't judged: it costs as many comparisons as its
    /// dependencies, where they are the heads, and elsewhere what joining their pasts does.
    pub fn reserve(&mut self, change: &Change) -> Result<(), AllocError>
        requires { cause self.old.applied change.now ≡ None }
        ensures applied { self.new.applied ≡ self.old.applied }
        ensures waiting { self.new.waiting ≡ self.old.waiting }
        ensures room { OnOk result (self.new.room ≡ Some (hash_of change.now)) }
        ensures err { OnErr result (self.new.room ≡ self.old.room) }
    {
        self.applied.reserve(change)
    }

    /// Checks as [`check`](Graph::check) does, and then makes every growth as [`reserve`](Graph::reserve) does, after
    /// the past that was found. What a caller sees stays as it was.
    pub fn ready(&mut self, change: &Change) -> Result<(), GraphError>
        ensures answers { MatchesCause result (cause self.old.applied change.now) }
        ensures applied { self.new.applied ≡ self.old.applied }
        ensures waiting { self.new.waiting ≡ self.old.waiting }
        ensures room { OnOk result (self.new.room ≡ Some (hash_of change.now)) }
        ensures err { OnErr result (self.new.room ≡ self.old.room) }
    {
        self.applied.ready(change)
    }

    /// As [`ready`](Graph::ready), for the waiting change with the number `i`, from 0 in the order in which they
    /// came. So it can be made ready for before it is taken out, and isn't lost where memory is refused.
    pub fn ready_waiting(&mut self, i: usize) -> Result<(), GraphError>
        requires { i < length self.old.waiting }
        ensures answers { (c : ChangeParts) → slice_get self.old.waiting i ≡ Some c
            → MatchesCause result (cause self.old.applied c) }
        ensures applied { self.new.applied ≡ self.old.applied }
        ensures waiting { self.new.waiting ≡ self.old.waiting }
        ensures room { (c : ChangeParts) → slice_get self.old.waiting i ≡ Some c
            → OnOk result (self.new.room ≡ Some (hash_of c)) }
        ensures err { OnErr result (self.new.room ≡ self.old.room) }
    {
        self.applied.ready(&self.waiting[i])
    }

    /// Enters a change that can enter, as the last applied one, once its growths were made by
    /// [`reserve`](Graph::reserve) or [`ready`](Graph::ready). No memory.
    pub fn enter(&mut self, change: Change)
        requires enters { cause self.old.applied change ≡ None }
        requires room { self.old.room ≡ Some (hash_of change) }
        ensures applied { self.new.applied ≡ self.old.applied ++ change ∷ [] }
        ensures waiting { self.new.waiting ≡ self.old.waiting }
        ensures room { self.new.room ≡ None }
    {
        self.applied.enter(change);
    }

    /// Enters a change that can enter, and answers its place in applied order, from 0. A change that is refused
    /// is given back, and what a caller sees stays as it was, the room that was made among it.
    pub fn add(&mut self, change: Change) -> Result<u32, Rejected>
        ensures answers { MatchResult result
            (λ place. (cause self.old.applied change ≡ None) × (place ≡ length self.old.applied))
            (λ rejected. IsCause rejected.error (cause self.old.applied change)
            × (rejected.change ≡ change)) }
        ensures applied { self.new.applied
            ≡ (if is_ok result then self.old.applied ++ change ∷ [] else self.old.applied) }
        ensures waiting { self.new.waiting ≡ self.old.waiting }
        ensures room { self.new.room ≡ (if is_ok result then None else self.old.room) }
    {
        match self.ready(&change) {
            Ok(()) => {
                let place = self.changes().len() as u32;
                self.enter(change);
                Ok(place)
            }
            Err(error) => Err(Rejected { change, error }),
        }
    }

    /// Keeps a change that waits, after those that wait already. There are fewer than 1,024 of them, and none has
    /// its hash. The only refusal is `OutOfMemory`, which gives the change back and leaves the graph as it was.
    pub fn hold(&mut self, change: Change) -> Result<(), Rejected>
        requires few { length self.old.waiting < most_waiting }
        requires apart { named.has self.old.waiting (hash_of change) ≡ false }
        ensures waiting { self.new.waiting
            ≡ (if is_ok result then self.old.waiting ++ change ∷ [] else self.old.waiting) }
        ensures err { IfErr result
            (λ rejected. (rejected.change ≡ change) × (rejected.error ≡ GraphError.OutOfMemory)) }
        ensures applied { self.new.applied ≡ self.old.applied }
        ensures room { self.new.room ≡ self.old.room }
    {
        match self.waiting.push(change) {
            Ok(()) => Ok(()),
            Err(failed) => Err(Rejected {
                change: failed.value,
                error: GraphError::OutOfMemory,
            }),
        }
    }

    /// Takes out the waiting change with the number `i`, from 0 in the order in which they came. The others keep
    /// their order. No memory.
    pub fn release(&mut self, i: usize) -> Change
        requires { i < length self.old.waiting }
        ensures change { slice_get self.old.waiting i ≡ Some result }
        ensures waiting { self.new.waiting ≡ remove self.old.waiting i }
        ensures applied { self.new.applied ≡ self.old.applied }
        ensures room { self.new.room ≡ self.old.room }
    {
        self.waiting.remove(i)
    }

    /// The past of the hashes: the changes that have them and all that these depend on, as places. A hash that no
    /// applied change has is refused as `UnknownHead`, and the only other refusal is `OutOfMemory`.
    ///
    /// The pasts of the hashes are joined as [`check`](Graph::check) does; then each place is asked for, with a
    /// comparison before the prefix.
    pub fn past(&self, hashes: &[Hash]) -> Result<Past, GraphError>
        ensures places { IfOk result (λ places. places ≡ past_places self.now.applied hashes.now) }
        ensures unknown { (result ≡ Err GraphError.UnknownHead)
            ↔ (named.has_all self.now.applied hashes.now ≡ false) }
        ensures err { IfErr result
            (λ error. (error ≡ GraphError.UnknownHead) ⊎ (error ≡ GraphError.OutOfMemory)) }
    {
        let ancestry = self.applied.ancestry();
        if !ancestry.has_all(hashes) {
            return Err(GraphError::UnknownHead);
        }
        let past_set = ancestry.past_set(hashes)?;
        Ok(Past::new(places_in(ancestry, &past_set)?))
    }

    /// The clock of the past of the hashes, with the refusals of [`past`](Graph::past).
    ///
    /// The pasts of the hashes are joined as [`check`](Graph::check) does; then the past is asked for the last change
    /// of each actor of the applied changes, as often as the logarithm of the number of the actor's changes. No change
    /// is walked over.
    pub fn clock(&self, hashes: &[Hash]) -> Result<Clock, GraphError>
        ensures clock { IfOk result (λ clock. IsClockOf clock (past self.now.applied hashes.now)) }
        ensures unknown { (result ≡ Err GraphError.UnknownHead)
            ↔ (named.has_all self.now.applied hashes.now ≡ false) }
        ensures err { IfErr result
            (λ error. (error ≡ GraphError.UnknownHead) ⊎ (error ≡ GraphError.OutOfMemory)) }
    {
        let ancestry = self.applied.ancestry();
        if ancestry.has_all(hashes) {
            Ok(ancestry.clock(hashes)?)
        } else {
            Err(GraphError::UnknownHead)
        }
    }

    /// The applied changes outside the past of those hashes that are known, in applied order. The only refusal is
    /// `OutOfMemory`.
    ///
    /// The pasts of the hashes are joined as [`check`](Graph::check) does; then each place after the prefix is asked
    /// for.
    pub fn changes_since(&self, hashes: &[Hash]) -> Result<Vec<&Change>, GraphError>
        ensures changes { IfOk result
            (λ v. map (λ c. c.now) v.items ≡ since self.now.applied hashes.now) }
        ensures err { IsOkUnless result GraphError.OutOfMemory }
    {
        Ok(self.applied.ancestry().changes_since(hashes)?)
    }

    /// Copies of what [`changes_since`](Graph::changes_since) gives, with its refusal.
    pub fn since(&self, hashes: &[Hash]) -> Result<Vec<Change>, GraphError>
        ensures changes { IfOk result (λ v. v.items ≡ since self.now.applied hashes.now) }
        ensures err { IsOkUnless result GraphError.OutOfMemory }
    {
        let ancestry = self.applied.ancestry();
        let found = ancestry.changes_since(hashes)?;
        copies_of(ancestry.alloc(), &found)
    }

    /// For each applied change, in applied order, whether it is outside the past of those of the hashes that are known,
    /// or has one of the hashes `also`. The only refusal is `OutOfMemory`.
    ///
    /// The pasts of the hashes are joined as [`check`](Graph::check) does; then each place is asked for, with a
    /// comparison before the prefix. It takes a byte for each applied change, and a look-up for each of `also`.
    pub fn marks_since(&self, hashes: &[Hash], also: &[Hash]) -> Result<Vec<bool>, GraphError>
        ensures marks { IfOk result
            (λ v. v.items ≡ marks_since self.now.applied hashes.now also.now) }
        ensures err { IsOkUnless result GraphError.OutOfMemory }
    {
        Ok(self.applied.ancestry().marks_since(hashes, also)?)
    }

    /// The changes that [`marks_since`](Graph::marks_since) marks, to be found one after another by
    /// [`next_outside`](Graph::next_outside). The only refusal is `OutOfMemory`.
    ///
    /// The pasts of the hashes are joined as [`check`](Graph::check) does. Only where a change has one of the hashes
    /// `also` each place is asked for, and it takes a byte for each applied change.
    pub fn outside(&self, hashes: &[Hash], also: &[Hash]) -> Result<Outside, GraphError>
        ensures outside { IfOk result (IsOutside self.now.applied hashes.now also.now) }
        ensures err { IsOkUnless result GraphError.OutOfMemory }
    {
        Ok(self.applied.ancestry().outside_of(hashes, also)?)
    }

    /// The first place, from a given one on, of a change that is outside; where there is none, a place after all
    /// changes. It asks for the places from there, or from the prefix of the past, up to that: a comparison each where
    /// the past has no latest place.
    pub fn next_outside(&self, outside: &Outside, from: usize) -> usize
        requires { (H : List Hash) × (K : List Hash) × IsOutside self.now.applied H K outside.now }
        ensures { (H K : List Hash) → IsOutside self.now.applied H K outside.now
            → IsNext (marks_since self.now.applied H K) from result }
    {
        self.applied.ancestry().next_outside(outside, from)
    }

    /// The first place, from one on and before another, of a change that is outside; where there is none, a place that
    /// isn't before that other. Places from that other on aren't asked for; the cost is else that of
    /// [`next_outside`](Graph::next_outside).
    pub fn next_outside_before(&self, outside: &Outside, from: usize, to: usize) -> usize
        requires { (H : List Hash) × (K : List Hash) × IsOutside self.now.applied H K outside.now }
        ensures { (H K : List Hash) → IsOutside self.now.applied H K outside.now
            → IsNextBefore (marks_since self.now.applied H K) from to result }
    {
        self.applied
            .ancestry()
            .next_outside_before(outside, from, to)
    }

    /// The dependencies of waiting changes that are neither applied nor waiting, rising, each once. The only
    /// refusal is `OutOfMemory`.
    ///
    /// A look-up for each dependency, and a pass over the waiting changes for each that isn't applied.
    pub fn missing(&self) -> Result<Vec<Hash>, GraphError>
        ensures rising { IfOk result (λ v. IsRising hash_cmp v.items) }
        ensures there { IfOk result
            (λ v. (h : Hash) → In h v.items ↔ IsMissing self.now.applied self.now.waiting h) }
        ensures err { IsOkUnless result GraphError.OutOfMemory }
    {
        Ok(missing(self.applied.ancestry(), self.waiting.as_slice())?)
    }
}

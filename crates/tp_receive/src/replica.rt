//! What receives changes: applied changes, and changes that wait.

ghost use Rattle.std.specs.Prelude.{◌≡◌, ◌<◌, ◌≤◌, ◌++◌, ◌∷◌, [], ℕ, List, Option, Some, None, false, length, is_ok, if◌then◌else◌, IfErr, OnOk, OnErr};
ghost use Rattle.tp_receive.specs.Common.{slice_get, ChangeParts, hash_of, cause, Sound, most_waiting, DocId, MatchesCause, HashesOnce};
ghost use Rattle.tp_history.specs.Named as named;
ghost use Rattle.tp_receive.specs.Receiving.{IsSeenAs, IsTakenOut};

use tp_change::Change;
use tp_graph::{Graph, GraphError, Rejected};
use tp_opid::Hash;

/// Applied changes in the order in which they entered, and changes that wait for others. A graph is one, and so
/// is a document, which keeps more beside them.
pub trait Replica: Drop {
    /// The identifier of the document, where it has one.
    ghost id: { Self → Option DocId };

    /// The applied changes, in the order in which they entered.
    ghost applied: { Self → List ChangeParts };

    /// The changes that wait, in the order in which they came.
    ghost waiting: { Self → List ChangeParts };

    /// Every growth that the entry of the change takes is made.
    ghost has_room: { Self → ChangeParts → Type 0 };

    /// The applied changes: dependencies come before dependents.
    fn changes(&self) -> &[Change]
        ensures changes { result.now ≡ applied self.now }
        ensures sound { Sound (applied self.now) };

    /// The changes that wait, at most 1,024, each hash once.
    fn pending(&self) -> &[Change]
        ensures pending { result.now ≡ waiting self.now }
        ensures few { length (waiting self.now) ≤ most_waiting }
        ensures once { HashesOnce (waiting self.now) };

    /// Whether an applied change has the hash.
    fn contains(&self, hash: &Hash) -> bool
        ensures { result ≡ named.has (applied self.now) hash.now };

    /// Whether the change can enter, or why not, with every growth that its entry takes made. It may be refused as
    /// `OutOfMemory` whatever the change.
    fn ready(&mut self, change: &Change) -> Result<(), GraphError>
        ensures answers { MatchesCause result (cause (applied self.old) change.now) }
        ensures stays { IsSeenAs id applied waiting self.old self.new }
        ensures room { OnOk result (has_room self.new change.now) };

    /// Checks the waiting change with the number `i`, from 0, and makes every growth that its entry takes. It goes
    /// on waiting.
    fn ready_waiting(&mut self, i: usize) -> Result<(), GraphError>
        requires { i < length (waiting self.old) }
        ensures answers { (c : ChangeParts) → slice_get (waiting self.old) i ≡ Some c
            → MatchesCause result (cause (applied self.old) c) }
        ensures stays { IsSeenAs id applied waiting self.old self.new }
        ensures room { (c : ChangeParts) → slice_get (waiting self.old) i ≡ Some c
            → OnOk result (has_room self.new c) };

    /// Enters a change that can enter and that was made ready for, as the last applied one. No memory.
    fn enter(&mut self, change: Change)
        requires enters { cause (applied self.old) change ≡ None }
        requires room { has_room self.old change }
        ensures id { id self.new ≡ id self.old }
        ensures applied { applied self.new ≡ applied self.old ++ change ∷ [] }
        ensures waiting { waiting self.new ≡ waiting self.old };

    /// Keeps a change that waits, after those that wait already, of which there are fewer than 1,024, none with
    /// its hash. The only refusal is for want of memory, and leaves what waits as it was.
    fn hold(&mut self, change: Change) -> Result<(), Rejected>
        requires few { length (waiting self.old) < most_waiting }
        requires apart { named.has (waiting self.old) (hash_of change) ≡ false }
        ensures waiting { waiting self.new
            ≡ (if is_ok result then waiting self.old ++ change ∷ [] else waiting self.old) }
        ensures err { IfErr result
            (λ rejected. (rejected.change ≡ change) × (rejected.error ≡ GraphError.OutOfMemory)) }
        ensures id { id self.new ≡ id self.old }
        ensures applied { applied self.new ≡ applied self.old };

    /// Takes out the waiting change with the number `i`, from 0. The others keep their order, and growths that were
    /// made stay. No memory.
    fn release(&mut self, i: usize) -> Change
        requires { i < length (waiting self.old) }
        ensures taken { IsTakenOut (waiting self.old) i result (waiting self.new) }
        ensures id { id self.new ≡ id self.old }
        ensures applied { applied self.new ≡ applied self.old }
        ensures room { (c : ChangeParts) → has_room self.old c → has_room self.new c };
}

impl Replica for Graph {
    ghost id = { λ g. None };

    ghost applied = { λ g. g.applied };

    ghost waiting = { λ g. g.waiting };

    ghost has_room = { λ g c. g.room ≡ Some (hash_of c) };

    fn changes(&self) -> &[Change] {
        Graph::changes(self)
    }

    fn pending(&self) -> &[Change] {
        Graph::pending(self)
    }

    fn contains(&self, hash: &Hash) -> bool {
        Graph::contains(self, hash)
    }

    fn ready(&mut self, change: &Change) -> Result<(), GraphError> {
        Graph::ready(self, change)
    }

    fn ready_waiting(&mut self, i: usize) -> Result<(), GraphError> {
        Graph::ready_waiting(self, i)
    }

    fn enter(&mut self, change: Change) {
        Graph::enter(self, change)
    }

    fn hold(&mut self, change: Change) -> Result<(), Rejected> {
        Graph::hold(self, change)
    }

    fn release(&mut self, i: usize) -> Change {
        Graph::release(self, i)
    }
}

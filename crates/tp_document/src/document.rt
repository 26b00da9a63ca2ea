//! The document: applied changes with the elements that they insert, and changes that wait.

ghost use Rattle.std.specs.Prelude.{◌≡◌, ◌↔◌, ◌<◌, ◌≤◌, List, [], ◌∷◌, ◌++◌, length, map, false, None, Some, is_ok, if◌then◌else◌, MatchOption, IfOk, IfErr, IsOkUnless, OnOk, OnErr};
ghost use Rattle.tp_document.specs.Common.{slice_get, chars, In, IsTextOf, cause, most_changes, Sound, hash_of, ChangeParts, string_bytes, remove};
ghost use Rattle.tp_list.specs.Rising.{IsRising};
ghost use Rattle.tp_opid.specs.declared.hash.Hash.{Hash as HashOf};
ghost use Rattle.tp_opid.specs.Order.{hash_cmp};
ghost use Rattle.tp_history.specs.Named as named;
ghost use Rattle.tp_history.specs.Heads as head;
ghost use Rattle.tp_history.specs.Since.{since};
ghost use Rattle.tp_graph.specs.Waiting.{IsMissing};
ghost use Rattle.tp_graph.specs.Causes.{MatchesCause};
ghost use Rattle.tp_graph.specs.GraphState.{most_waiting};
ghost use Rattle.tp_history.specs.Named.{HashesOnce};
ghost use Rattle.tp_layout.specs.Limits.{AllChanges};
ghost use Rattle.tp_document.specs.DocState.{HasRoomFor, MakesRoom};
ghost use Rattle.tp_snapshot.specs.Showing.{HasLength, HasCharAt};
ghost use Rattle.tp_document.specs.declared.error.DocError.TheVariants.{OutOfMemory};

use crate::error::DocError;
use std::alloc::{AllocError, Global};
use std::marker::Model;
use tp_change::Change;
use tp_edit::apply_change;
use tp_graph::{Graph, GraphError};
use tp_opid::{DocId, Hash};
use tp_rga::Sequence;

/// One text with its history: the changes that are applied, those that wait, and the sequence of elements.
///
/// Contracts see its identifier, the two lists of changes and for which change room was made. The sequence of
/// elements, in which deleted ones stay as tombstones, is kept beside them: it has the elements that the applied
/// changes insert, in the order of the text, and their deletes.
pub struct Document<S: Sequence> {
    pub(crate) alloc: Global,
    pub(crate) id: DocId,
    pub(crate) graph: Graph,
    pub(crate) sequence: S,
}

impl<S: Sequence> Drop for Document<S> {
    fn drop(self) {
        let Document {
            alloc: _,
            id: _,
            graph: _,
            sequence: _,
        } = self;
    }
}

impl<S: Sequence> Model for Document<S> {
    ghost use Rattle.tp_document.specs.DocState.{DocState};
    ghost use Rattle.tp_snapshot.specs.Showing.{DocumentInvariant};

    ghost Value = { DocState };

    ghost view = { λ d. record { id = d.id; applied = d.graph.applied; waiting = d.graph.waiting; room = d.graph.room; space = S.room d.sequence } };

    ghost invariant = { λ d. DocumentInvariant d.graph.applied (S.placed d.sequence) (S.removals d.sequence) };
}

// Drops the changes that wait.
fn drop_waiting(graph: &mut Graph)
    ensures applied { graph.new.applied ≡ graph.old.applied }
    ensures waiting { graph.new.waiting ≡ [] }
    ensures room { graph.new.room ≡ graph.old.room }
{
    let mut left = graph.pending().len();
    while left > 0 {
        left -= 1;
        let _dropped = graph.release(left);
    }
}

impl<S: Sequence> Document<S> {
    /// A document with no changes. It takes no memory.
    pub fn new(alloc: Global, id: DocId) -> Document<S>
        ensures id { result.id ≡ id }
        ensures applied { result.applied ≡ [] }
        ensures waiting { result.waiting ≡ [] }
    {
        Document {
            alloc,
            id,
            graph: Graph::new(alloc),
            sequence: S::new(alloc),
        }
    }

    /// The identifier that the document was made with.
    pub fn id(&self) -> DocId
        ensures { result ≡ self.now.id }
    {
        self.id
    }

    /// The text: the visible characters in order. The only refusal is `OutOfMemory`.
    ///
    /// One pass over the elements, deleted ones among them.
    pub fn text(&self) -> Result<String, DocError>
        ensures text { IfOk result (λ t. IsTextOf self.now.applied (chars (string_bytes t))) }
        ensures err { IsOkUnless result OutOfMemory }
    {
        Ok(tp_edit::text(self.alloc, &self.sequence)?)
    }

    /// How many characters (Unicode scalar values) the text has.
    pub fn len(&self) -> usize
        ensures { HasLength self.now.applied result }
    {
        self.sequence.len()
    }

    /// The character at a position of the text, from 0; `None` past its end.
    pub fn char_at(&self, at: usize) -> Option<char>
        ensures { HasCharAt self.now.applied at result }
    {
        self.sequence.char_at(at)
    }

    /// The graph of its changes. It answers what is asked of the changes alone: which of them another lacks, one after
    /// another ([`Graph::outside`](tp_graph::Graph::outside)), and whether a change can enter
    /// ([`Graph::check`](tp_graph::Graph::check)).
    pub fn graph(&self) -> &Graph
        ensures applied { result.now.applied ≡ self.now.applied }
        ensures waiting { result.now.waiting ≡ self.now.waiting }
    {
        &self.graph
    }

    /// The applied changes, in the order in which they entered: dependencies come before dependents.
    pub fn changes(&self) -> &[Change]
        ensures changes { result.now ≡ self.now.applied }
        ensures sound { Sound self.now.applied }
        ensures limits { AllChanges self.now.applied }
        ensures few { length self.now.applied ≤ most_changes }
    {
        self.graph.changes()
    }

    /// The applied change with the hash. One look-up.
    pub fn get(&self, hash: &Hash) -> Option<&Change>
        ensures { MatchOption result (named.has self.now.applied hash.now ≡ false)
            (λ change. In change.now self.now.applied × (hash_of change.now ≡ hash.now)) }
    {
        self.graph.get(hash)
    }

    /// The applied changes outside the past of those of the hashes that are known, in applied order: what another lacks
    /// whose heads these are. The only refusal is `OutOfMemory`.
    ///
    /// The pasts of the hashes are joined by what is kept beside their changes; then each later change is asked for.
    pub fn changes_since(&self, hashes: &[Hash]) -> Result<Vec<&Change>, DocError>
        ensures changes { IfOk result
            (λ v. map (λ c. c.now) v.items ≡ since self.now.applied hashes.now) }
        ensures err { IsOkUnless result OutOfMemory }
    {
        match self.graph.changes_since(hashes) {
            Ok(changes) => Ok(changes),
            Err(_) => Err(DocError::OutOfMemory),
        }
    }

    /// The hashes of the applied changes on which no applied change depends, rising.
    pub fn heads(&self) -> &[Hash]
        ensures { result.now ≡ head.heads self.now.applied }
    {
        self.graph.heads()
    }

    /// Whether an applied change has the hash.
    pub fn contains(&self, hash: &Hash) -> bool
        ensures { result ≡ named.has self.now.applied hash.now }
    {
        self.graph.contains(hash)
    }

    /// The changes that wait for others, in the order in which they came: at most 1,024, each hash once.
    pub fn pending(&self) -> &[Change]
        ensures pending { result.now ≡ self.now.waiting }
        ensures few { length self.now.waiting ≤ most_waiting }
        ensures once { HashesOnce self.now.waiting }
    {
        self.graph.pending()
    }

    /// How many changes wait.
    pub fn pending_len(&self) -> usize
        ensures { result ≡ length self.now.waiting }
    {
        self.graph.pending().len()
    }

    /// The hashes of changes that those that wait depend on, and that are neither applied nor waiting: rising, each
    /// once. The only refusal is `OutOfMemory`.
    pub fn missing(&self) -> Result<Vec<Hash>, DocError>
        ensures rising { IfOk result (λ v. IsRising hash_cmp v.items) }
        ensures there { IfOk result
            (λ v. (h : HashOf) → In h v.items ↔ IsMissing self.now.applied self.now.waiting h) }
        ensures err { IsOkUnless result OutOfMemory }
    {
        match self.graph.missing() {
            Ok(hashes) => Ok(hashes),
            Err(_) => Err(DocError::OutOfMemory),
        }
    }

    /// Drops the changes that wait. No memory.
    pub fn forget_pending(&mut self)
        ensures { self.new ≡ record self.old { waiting = [] } }
    {
        drop_waiting(&mut self.graph);
    }

    /// Makes every growth that the entry of a change takes that can enter, so that [`enter`](Document::enter) takes no
    /// memory. What a caller sees stays as it was. The change isn't judged.
    pub fn reserve(&mut self, change: &Change) -> Result<(), AllocError>
        requires { cause self.old.applied change.now ≡ None }
        ensures stays { MakesRoom self.old self.new }
        ensures room { OnOk result (HasRoomFor self.new change.now) }
    {
        self.sequence.reserve(change.op_count())?;
        self.graph.reserve(change)
    }

    /// Checks as [`Graph::check`](tp_graph::Graph::check) does, and makes every growth as [`reserve`](Document::reserve) does. What a
    /// caller sees stays as it was.
    pub fn ready(&mut self, change: &Change) -> Result<(), GraphError>
        ensures answers { MatchesCause result (cause self.old.applied change.now) }
        ensures stays { MakesRoom self.old self.new }
        ensures room { OnOk result (HasRoomFor self.new change.now) }
        ensures err { OnErr result (self.new.room ≡ self.old.room) }
    {
        self.sequence.reserve(change.op_count())?;
        self.graph.ready(change)
    }

    /// Makes ready for the waiting change with the number `i`, from 0, as [`ready`](Document::ready) does. It goes on
    /// waiting.
    pub(crate) fn ready_waiting(&mut self, i: usize) -> Result<(), GraphError>
        requires { i < length self.old.waiting }
        ensures answers { (c : ChangeParts) → slice_get self.old.waiting i ≡ Some c
            → MatchesCause result (cause self.old.applied c) }
        ensures stays { MakesRoom self.old self.new }
        ensures room { (c : ChangeParts) → slice_get self.old.waiting i ≡ Some c
            → OnOk result (HasRoomFor self.new c) }
    {
        let count = self.graph.pending()[i].op_count();
        self.sequence.reserve(count)?;
        self.graph.ready_waiting(i)
    }

    /// Enters a change that can enter, as the last applied one, once its growths were made by [`reserve`](Document::reserve)
    /// or [`ready`](Document::ready): its operations go into the sequence. No memory.
    pub fn enter(&mut self, change: Change)
        requires enters { cause self.old.applied change ≡ None }
        requires room { HasRoomFor self.old change }
        ensures id { self.new.id ≡ self.old.id }
        ensures applied { self.new.applied ≡ self.old.applied ++ change ∷ [] }
        ensures waiting { self.new.waiting ≡ self.old.waiting }
    {
        let _hash = change.hash();
        apply_change(&mut self.sequence, &change);
        self.graph.enter(change);
    }
}

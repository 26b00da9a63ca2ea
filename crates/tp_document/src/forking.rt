//! Copies of documents.

ghost use Rattle.std.specs.Prelude.{◌≡◌, ◌↔◌, ◌⊎◌, ◌<◌, ◌≤◌, ℕ, [], ◌∷◌, ◌++◌, None, false, length, IfOk, IfErr, IfSome, IsOkUnless, OnOk};
ghost use Rattle.tp_document.specs.Common.{cause, most_changes, Sound, In, has_all};
ghost use Rattle.tp_history.specs.Past as pasts;
ghost use Rattle.tp_document.specs.DocState.{HasJust};
ghost use Rattle.tp_document.specs.Forking.{changes_at_places};
ghost use Rattle.tp_document.specs.declared.error.DocError.TheVariants.{OutOfMemory};

use crate::document::Document;
use crate::error::DocError;
use std::alloc::{AllocError, Global};
use tp_change::Change;
use tp_graph::GraphError;
use tp_opid::{DocId, Hash};
use tp_rga::Sequence;

// Enters a copy of a change that can enter.
fn enter_copy<S: Sequence>(document: &mut Document<S>, change: &Change) -> Result<(), DocError>
    requires { cause document.old.applied change.now ≡ None }
    ensures ok { OnOk result (document.new.applied ≡ document.old.applied ++ change.now ∷ []) }
    ensures id { document.new.id ≡ document.old.id }
    ensures waiting { document.new.waiting ≡ document.old.waiting }
    ensures err { IsOkUnless result OutOfMemory }
{
    match change.copy() {
        Ok(copied) => match document.reserve(&copied) {
            Ok(()) => {
                document.enter(copied);
                Ok(())
            }
            Err(_) => Err(DocError::OutOfMemory),
        },
        Err(_) => Err(DocError::OutOfMemory),
    }
}

// A document with copies of the changes, entered one after another.
fn document_of<S: Sequence>(
    alloc: Global,
    id: DocId,
    changes: &[Change],
) -> Result<Document<S>, DocError>
    requires sound { Sound changes.now }
    requires few { length changes.now ≤ most_changes }
    ensures ok { IfOk result (λ d. HasJust id changes.now d) }
    ensures err { IsOkUnless result OutOfMemory }
{
    let mut document = Document::new(alloc, id);
    for change in changes {
        enter_copy(&mut document, change)?;
    }
    Ok(document)
}

// A document with copies of the changes at the places, entered one after another.
fn document_at<S: Sequence>(
    alloc: Global,
    id: DocId,
    changes: &[Change],
    places: &[u32],
) -> Result<Document<S>, DocError>
    requires within { (i : ℕ) → In i places.now → i < length changes.now }
    requires sound { Sound (changes_at_places changes.now places.now) }
    requires few { length (changes_at_places changes.now places.now) ≤ most_changes }
    ensures ok { IfOk result (λ d. HasJust id (changes_at_places changes.now places.now) d) }
    ensures err { IsOkUnless result OutOfMemory }
{
    let mut document = Document::new(alloc, id);
    for place in places {
        enter_copy(&mut document, &changes[*place as usize])?;
    }
    Ok(document)
}

impl<S: Sequence> Document<S> {
    // A copy of the document as it is, but for what waits; `None` where its sequence has to be made anew.
    fn try_copy(&self) -> Result<Option<Document<S>>, AllocError>
        ensures { IfOk result (λ copy. IfSome copy (HasJust self.now.id self.now.applied)) }
    {
        let sequence = match self.sequence.try_copy(self.alloc)? {
            Some(sequence) => sequence,
            None => return Ok(None),
        };
        match self.graph.copy() {
            Ok(graph) => Ok(Some(Document {
                alloc: self.alloc,
                id: self.id,
                graph,
                sequence,
            })),
            Err(error) => {
                drop(sequence);
                Err(error)
            }
        }
    }

    /// A document with the same identifier and copies of the applied changes; nothing waits in it. The only refusal
    /// is `OutOfMemory`. The changes are copied one by one, and what is kept beside them as it is. Where the sequence
    /// can't be copied so, each change is entered anew without judging it, which joins the pasts of its dependencies where
    /// they aren't all heads.
    ///
    /// The vectors of a copy with an entry for each change, element or delete have room for an eighth more, and up to
    /// four: a change within that room moves none of them. The first change of a copy moves three lists that are copied
    /// without room: the heads, the pasts of changes that don't have all before a place as their past, and the marks of
    /// changes of many operations. A list of the actors of elements is moved where a change has more operations than that
    /// list has room for.
    pub fn fork(&self) -> Result<Document<S>, DocError>
        ensures ok { IfOk result (λ d. HasJust self.now.id self.now.applied d) }
        ensures err { IsOkUnless result OutOfMemory }
    {
        match self.try_copy() {
            Ok(Some(copy)) => Ok(copy),
            Ok(None) => document_of(self.alloc, self.id, self.changes()),
            Err(_) => Err(DocError::OutOfMemory),
        }
    }

    /// A document with the same identifier and copies of the past of the hashes: the changes that have them and all
    /// that these depend on, in applied order; nothing waits in it. Any order, repeats allowed; no hash gives a
    /// document with no changes. `UnknownHead` where a hash isn't that of an applied change; the only other refusal is
    /// `OutOfMemory`. It enters each of the changes anew.
    pub fn fork_at(&self, hashes: &[Hash]) -> Result<Document<S>, DocError>
        ensures ok { IfOk result
            (λ d. HasJust self.now.id (pasts.past self.now.applied hashes.now) d) }
        ensures unknown { (result ≡ Err DocError.UnknownHead)
            ↔ (has_all self.now.applied hashes.now ≡ false) }
        ensures err { IfErr result (λ e. (e ≡ DocError.UnknownHead) ⊎ (e ≡ OutOfMemory)) }
    {
        match self.graph.past(hashes) {
            Ok(past) => document_at(self.alloc, self.id, self.changes(), past.places()),
            Err(GraphError::UnknownHead) => Err(DocError::UnknownHead),
            Err(_) => Err(DocError::OutOfMemory),
        }
    }
}

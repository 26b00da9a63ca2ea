//! Merging documents.

ghost use Rattle.std.specs.Prelude.{◌≡◌, ◌++◌, ◌∷◌, [], IsTrue, IfOk, IsOkUnless};
ghost use Rattle.std.specs.Option.{is_some};
ghost use Rattle.tp_history.specs.Named.{has};
ghost use Rattle.tp_document.specs.Merging as merging;
ghost use Rattle.tp_document.specs.declared.error.DocError.TheVariants.{OutOfMemory};

use crate::document::Document;
use crate::error::DocError;
use tp_change::Change;
use tp_opid::Hash;
use tp_rga::Sequence;

// Whether the change at the place has the hash.
fn is_at(changes: &[Change], place: usize, hash: &Hash) -> bool
    ensures { IsTrue result → IsTrue (has changes.now hash.now) }
{
    if place < changes.len() {
        changes[place].hash().is(hash)
    } else {
        false
    }
}

// The place of a change with the hash, if the document has one. One place is looked at before any look-up: where the
// changes of two documents are in one order for a while, each is found after the one before.
fn place_of<S: Sequence>(document: &Document<S>, first: usize, hash: &Hash) -> Option<usize>
    ensures { is_some result ≡ has document.now.applied hash.now }
{
    if is_at(document.changes(), first, hash) {
        return Some(first);
    }
    document.graph.place(hash)
}

// Puts a copy of the change after the changes, where the document hasn't its hash; and else notes the place after it.
fn note_absent<S: Sequence>(
    document: &Document<S>,
    changes: &mut Vec<Change>,
    next: &mut usize,
    change: &Change,
) -> Result<(), DocError>
    ensures ok { IfOk result (λ _. changes.new.items
        ≡ changes.old.items ++ merging.absent document.now.applied (change.now ∷ [])) }
    ensures err { IsOkUnless result OutOfMemory }
{
    if let Some(place) = place_of(document, *next, &change.hash()) {
        *next = place.saturating_add(1);
        return Ok(());
    }
    match change.copy() {
        Ok(copied) => Ok(changes.push(copied)?),
        Err(_) => Err(DocError::OutOfMemory),
    }
}

/// Copies of the changes whose hashes the document hasn't, in their order.
pub(crate) fn absent<S: Sequence>(
    document: &Document<S>,
    changes: &[Change],
) -> Result<Vec<Change>, DocError>
    ensures copied { IfOk result (λ v. v.items ≡ merging.absent document.now.applied changes.now) }
    ensures err { IsOkUnless result OutOfMemory }
{
    let mut found = Vec::new(document.alloc);
    let mut next = 0;
    for change in changes {
        note_absent(document, &mut found, &mut next, change)?;
    }
    Ok(found)
}

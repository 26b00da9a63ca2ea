//! What is recovered from the bytes of a journal.

ghost use Rattle.std.specs.Prelude.{◌≡◌, ◌⊎◌, ◌<◌, ℕ, List, [], ◌∷◌, ◌++◌, None, length, Some, IfOk, IfErr, IfNone, IfSome, OnOk, OnErr, IsOkUnless};
ghost use Rattle.tp_layout.specs.declared.parts.ChangeParts.{ChangeParts};
ghost use Rattle.tp_layout.specs.Limits.{IsChange};
ghost use Rattle.tp_history.specs.Fit.{cause};
ghost use Rattle.tp_history.specs.declared.error.GraphError.{GraphError as Cause};
ghost use Rattle.tp_opid.specs.declared.doc_id.DocId.{DocId as Id};
ghost use Rattle.tp_recovery.specs.Layout.{IsDocId, header_of, record_of, IsShortTail};
ghost use Rattle.tp_recovery.specs.Recovery.{HasTail, IsHistory, Recovers};
ghost use Rattle.tp_recovery.specs.Refusals.{IsFaultAt, IsRecordFault, IsJournalFault};
ghost use Rattle.tp_store.specs.declared.error.StoreError.TheVariants.{Refused, OutOfMemory};

use crate::pieces::Recovering;
use crate::reading::{change_of, split_record};
use std::alloc::Global;
use tp_change::Change;
use tp_digest::Ahead;
use tp_document::Document;
use tp_graph::GraphError;
use tp_rga::Sequence;
use tp_store::StoreError;

/// A document that was recovered from a journal.
#[derive(Drop)]
pub struct Recovered<S: Sequence> {
    /// The document, with the changes of the whole records. Nothing waits in it.
    pub document: Document<S>,
    /// How many bytes the header and the whole records have: the journal is cut to that many before more is appended.
    pub keep: u64,
    /// The bytes after these, which are cut off: a record that wasn't written to its end, or one whose length is
    /// damaged.
    pub tail: Vec<u8>,
}

/// Enters a change, or says why it can't.
pub(crate) fn enter_change<S: Sequence>(
    document: &mut Document<S>,
    change: Change,
) -> Result<(), StoreError>
    ensures ok { OnOk result ((cause document.old.applied change ≡ None)
        × (document.new.applied ≡ document.old.applied ++ change ∷ [])) }
    ensures id { document.new.id ≡ document.old.id }
    ensures waiting { document.new.waiting ≡ document.old.waiting }
    ensures err { IfErr result (λ e. (e ≡ OutOfMemory)
        ⊎ ((g : Cause) × (e ≡ Refused g) × (cause document.old.applied change ≡ Some g))) }
    ensures stays { OnErr result (document.new.applied ≡ document.old.applied) }
{
    match document.ready(&change) {
        Ok(()) => {
            document.enter(change);
            Ok(())
        }
        Err(GraphError::OutOfMemory) => Err(StoreError::OutOfMemory),
        Err(error) => Err(StoreError::Refused(error)),
    }
}

/// Enters the change of the record at the prefix of the bytes, which is at this offset, and gives the bytes after
/// it; `None` where they are a short tail.
pub(crate) fn enter_next<'a, S: Sequence>(
    alloc: Global,
    document: &mut Document<S>,
    bytes: &'a [u8],
    at: u64,
    ahead: &mut Ahead<'_>,
) -> Result<Option<&'a [u8]>, StoreError>
    ensures next { IfOk result (λ found. IfSome found (λ rest. (c : ChangeParts)
        × (bytes.now ≡ record_of c ++ rest.now)
        × (document.new.applied ≡ document.old.applied ++ c ∷ []))) }
    ensures tail { IfOk result (λ found. IfNone found
        (IsShortTail bytes.now × (document.new.applied ≡ document.old.applied))) }
    ensures shorter { IfOk result (λ found. IfSome found
        (λ rest. length rest.now < length bytes.now)) }
    ensures id { document.new.id ≡ document.old.id }
    ensures waiting { document.new.waiting ≡ document.old.waiting }
    ensures err { IfErr result (λ e. (e ≡ OutOfMemory)
        ⊎ IsFaultAt document.old.applied at bytes.now e) }
    ensures stays { OnErr result (document.new.applied ≡ document.old.applied) }
{
    match split_record(bytes, at) {
        Ok(Some(laid)) => match change_of(alloc, laid.change, &laid.digest, at, ahead) {
            Ok(change) => match enter_change(document, change) {
                Ok(()) => Ok(Some(laid.rest)),
                Err(error) => Err(error),
            },
            Err(error) => Err(error),
        },
        Ok(None) => Ok(None),
        Err(error) => Err(error),
    }
}

/// What every document says of the changes that it has applied.
pub(crate) fn history<S: Sequence>(document: &Document<S>)
    ensures { IsHistory document.now.applied }
{
    let _changes = document.changes();
}

/// The document of a journal, and how many of its bytes are kept.
///
/// The journal is read from from first to last, once. It is refused as `BadMagic` where its first 8 bytes aren't the magic
/// (where there are fewer, these aren't a beginning of it); as `NoHeader` where there are fewer than 24 bytes; then,
/// record by record, as `Damaged`, with the offset in bytes that the record is at, where its length is 0 or past
/// 4,194,304, or where its digest isn't that of its bytes or they are no change's; and as `Refused` where its change
/// doesn't fit those before it. Fewer than 4 bytes after the last whole record, or fewer than its length and the digest
/// ask for, are a record that wasn't written to its end: it is left out. `OutOfMemory` can come whatever the bytes.
///
/// The cost is that of decoding the changes and entering them. No copy of the bytes is made, and no memory is asked for
/// by a length whose bytes aren't there.
pub fn recover<S: Sequence>(alloc: Global, bytes: &[u8]) -> Result<Recovered<S>, StoreError>
    ensures ok { IfOk result (λ r. Recovers bytes.now r.document.id r.document.applied r.keep) }
    ensures waiting { IfOk result (λ r. r.document.waiting ≡ []) }
    ensures tail { IfOk result (λ r. HasTail bytes.now r.keep r.tail.items) }
    ensures only { (id : Id) (C : List ChangeParts) (keep : ℕ) → Recovers bytes.now id C keep
        → IsOkUnless result OutOfMemory }
    ensures err { IfErr result (λ e. (e ≡ OutOfMemory) ⊎ IsJournalFault bytes.now e) }
{
    let mut recovering = Recovering::new(alloc);
    recovering.feed(bytes);
    recovering.finish()
}

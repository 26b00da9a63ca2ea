//! Receiving a message of another peer.

ghost use Rattle.std.specs.Prelude.{◌≡◌, Some, is_ok, if◌then◌else◌};
ghost use Rattle.tp_history.specs.Sound.{Sound};
ghost use Rattle.tp_receive.specs.Outcome.{HasOutcome, ReceivesAlone, ReceivesWith};
ghost use Rattle.tp_document.specs.Applying.{kept_by, kept_by_none};
ghost use Rattle.tp_sync.specs.State.{after_message};
ghost use Rattle.tp_sync.specs.Receiving.{receive_error_of};

use crate::state::SyncState;
use tp_document::{Applied, Document, Keeper, NoKeeper};
use tp_message::{Lists, Message, SyncError};
use tp_receive::ReceiveError;
use tp_rga::Sequence;

// The refusal of a message that a refusal of receiving its changes is.
fn refusal_of(error: ReceiveError) -> SyncError
    ensures { receive_error_of result ≡ Some error }
{
    match error {
        ReceiveError::PendingFull => SyncError::PendingFull,
        ReceiveError::NotKept => SyncError::NotKept,
        ReceiveError::OutOfMemory => SyncError::OutOfMemory,
    }
}

/// Receives a message of another peer, as [`receive`] does, and asks the keeper to keep each change before it enters.
///
/// The refusals are those of `receive`, and `NotKept` where the keeper refused a change: the state stays as it was, and the
/// document is left as [`Document::apply_with`] leaves it.
pub fn receive_with<S: Sequence, K: Keeper>(
    document: &mut Document<S>,
    state: &mut SyncState,
    message: Message,
    keeper: &mut K,
) -> Result<Applied, SyncError>
    ensures id { document.new.id ≡ document.old.id }
    ensures sound { Sound document.old.applied }
    ensures outcome { HasOutcome receive_error_of result (ReceivesWith K.keeps K.refuses
        (kept_by keeper.old document.old) message.changes (kept_by keeper.new document.new)) }
    ensures state { state.new ≡ (if is_ok result then after_message state.old message else state.old) }
{
    let Lists {
        version: _,
        heads,
        wants,
        known,
        changes,
    } = message.into_lists();
    let sent_changes = !changes.is_empty();
    let alloc = *changes.allocator();
    match tp_receive::receive(alloc, document, keeper, changes) {
        Ok(applied) => {
            state.hear(heads, wants, known, sent_changes);
            Ok(applied)
        }
        Err(error) => Err(refusal_of(error)),
    }
}

/// Receives a message of another peer, as Automerge's call `receive_sync_message`: its changes, as [`Document::apply`]
/// receives them, and then the heads that it declares, the hashes that it wants and those of changes that it knows, which
/// are none in a message of version 1. Where it carried changes, nothing counts as declared to the other, so that the
/// next message answers it.
///
/// A message may come twice or late: what it carries is then refused as `Known`, and reported.
///
/// `PendingFull` where more than 1,024 changes would wait: nothing changes. `OutOfMemory` leaves the document as it does
/// in `apply`. On each refusal the state stays as it was.
pub fn receive<S: Sequence>(
    document: &mut Document<S>,
    state: &mut SyncState,
    message: Message,
) -> Result<Applied, SyncError>
    ensures id { document.new.id ≡ document.old.id }
    ensures sound { Sound document.old.applied }
    ensures outcome { HasOutcome receive_error_of result (ReceivesAlone
        (kept_by_none document.old) message.changes (kept_by_none document.new)) }
    ensures state { state.new ≡ (if is_ok result then after_message state.old message else state.old) }
{
    let mut keeper = NoKeeper;
    receive_with(document, state, message, &mut keeper)
}

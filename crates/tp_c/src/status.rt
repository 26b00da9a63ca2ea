//! The statuses of refusals.

ghost use Rattle.std.specs.Prelude.{◌≡◌};
ghost use Rattle.tp_c.specs.Status as status;

use tp_document::DocError;
use tp_editor::{EditorError, EditorOpenError};
use tp_journal::OpenError;
use tp_peer::PeerError;
use tp_session::NetError;
use tp_store::StoreError;

/// The status where a growth was refused, before the layer below was asked.
pub(crate) const OUT_OF_MEMORY: u32 = 1;

/// The status where there is no change with a number.
pub(crate) const NO_CHANGE: u32 = 3;

/// The status where a text isn't UTF-8.
pub(crate) const BAD_TEXT: u32 = 4;

/// The status where lengths don't add up to the bytes that are given.
pub(crate) const BAD_LENGTHS: u32 = 5;

/// The status where memory was refused to an edit of a document, to a change of others or to a merge.
pub(crate) const DOC_OUT_OF_MEMORY: u32 = 109;

/// The status where memory was refused to a message.
pub(crate) const SYNC_OUT_OF_MEMORY: u32 = 205;

/// The status where memory was refused to a peer.
pub(crate) const PEER_OUT_OF_MEMORY: u32 = 509;

/// The number of a document's refusal.
pub(crate) fn number_of_doc(error: &DocError) -> u32
    ensures { result ≡ status.number_of_doc error.now }
{
    100 + error.code() as u32
}

/// The number of a saved file's refusal.
pub(crate) fn number_of_store(error: &StoreError) -> u32
    ensures { result ≡ status.number_of_store error.now }
{
    300 + error.code() as u32
}

/// The number of a peer's refusal, by that of want of memory in the call.
pub(crate) fn number_of_peer(error: &PeerError, memory: u32) -> u32
    ensures { result ≡ status.number_of_peer memory error.now }
{
    match error {
        PeerError::Doc(error) => number_of_doc(error),
        PeerError::Sync(error) => 200 + error.code() as u32,
        PeerError::Store(error) => number_of_store(error),
        PeerError::OutOfMemory => memory,
        error => 500 + error.code() as u32,
    }
}

/// The status of a call on a peer.
pub(crate) fn peer_status<T>(answered: &Result<T, PeerError>, memory: u32) -> u32
    ensures { result ≡ status.peer_status memory answered.now }
{
    match answered {
        Ok(_) => 0,
        Err(error) => number_of_peer(error, memory),
    }
}

/// The number of an editor's refusal.
pub(crate) fn number_of_editor(error: &EditorError, memory: u32) -> u32
    ensures { result ≡ status.number_of_editor memory error.now }
{
    match error {
        EditorError::NoLink => 2,
        EditorError::Peer(error) => number_of_peer(error, memory),
    }
}

/// The status of a call on an editor.
pub(crate) fn editor_status<T>(answered: &Result<T, EditorError>, memory: u32) -> u32
    ensures { result ≡ status.editor_status memory answered.now }
{
    match answered {
        Ok(_) => 0,
        Err(error) => number_of_editor(error, memory),
    }
}

/// The number of an error of a session.
pub(crate) fn number_of_session(error: &NetError) -> u32
    ensures { result ≡ status.number_of_session error.now }
{
    match error {
        NetError::Peer(error) => number_of_peer(error, PEER_OUT_OF_MEMORY),
        NetError::RefusedByOther { code } => 700 + *code as u32,
        error => 600 + error.code() as u32,
    }
}

/// The number of the refusal where an editor wasn't opened.
pub(crate) fn number_of_opening(error: &EditorOpenError) -> u32
    ensures { result ≡ status.number_of_opening error.now }
{
    match error {
        EditorOpenError::File(OpenError::Busy) => 801,
        EditorOpenError::File(OpenError::Io) => 802,
        EditorOpenError::File(OpenError::OutOfMemory) => 803,
        EditorOpenError::Peer(error) => number_of_peer(error, PEER_OUT_OF_MEMORY),
    }
}

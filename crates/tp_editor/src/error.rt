//! Why a call on an editor was refused, and why none was opened.

use thiserror::Error;
use tp_journal::OpenError;
use tp_peer::PeerError;

/// Why a call on a link was refused.
#[derive(Clone, Copy, Debug, PartialEq, Eq, Error)]
pub enum EditorError {
    /// There is no link with the number.
    #[error("NoLink")]
    NoLink,
    /// The peer refused.
    #[error("{0}")]
    Peer(PeerError),
}

/// Why an editor wasn't opened on a file.
#[derive(Clone, Copy, Debug, PartialEq, Eq, Error)]
pub enum EditorOpenError {
    /// The file wasn't opened, or another has its lock.
    #[error("{0}")]
    File(OpenError),
    /// The journal in it was refused.
    #[error("{0}")]
    Peer(PeerError),
}

//! What a frame says.

use bytes::Bytes;
use tp_opid::DocId;

/// A frame of the stream between two peers.
#[derive(Debug, PartialEq, Eq, Drop)]
pub enum Frame {
    /// The first frame of either side.
    Hello {
        /// The version of the protocol.
        version: u8,
        /// The document that the side holds.
        id: DocId,
    },
    /// The bytes of a sync message, at most 16,777,215. They aren't validated here.
    Sync(Bytes),
    /// The side has nothing more to send.
    Done,
    /// The side refused what it was sent, and why, as a number.
    Refusal(u8),
}

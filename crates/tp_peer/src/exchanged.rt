//! What comes of the messages of a peer.

use tp_document::Applied;

/// What a message that came led to.
#[derive(Drop)]
pub struct Received {
    /// What became of the changes that it carried.
    pub applied: Applied,
    /// Whether it declares the heads that the message before it on the link declared.
    pub same_heads: bool,
}

/// A message to another peer.
#[derive(Drop)]
pub struct Outgoing {
    /// Its bytes, as docs/FORMATS.md lays them out.
    pub bytes: Vec<u8>,
    /// Whether something is due, and the message takes it from the first change again, since nothing that is due is
    /// after what the messages before took.
    pub again: bool,
}

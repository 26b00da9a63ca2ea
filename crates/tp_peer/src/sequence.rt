//! How a peer keeps its text.

use tp_posindex::BlockSequence;

/// The sequence in which peers keep their elements. It is named here alone, and no contract of a peer speaks of it.
pub type PeerSequence = BlockSequence;

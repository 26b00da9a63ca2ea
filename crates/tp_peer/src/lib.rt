//! A peer: a document with the journal that keeps its changes, and links to other peers.
//!
//! Each change is appended to the journal before it enters the document, so what a peer shows is kept, and a peer whose
//! journal's device failed stops. Every call on a peer is one step of a machine, `PeerStep` in specs/PeerStep.
#![tactic(auto)]

mod actors;
mod appender;
mod editing;
mod editing_at;
mod error;
mod exchanged;
mod fused;
pub mod laws;
mod links;
mod merging;
mod opening;
mod peer;
mod sequence;
mod settling;
mod syncing;

pub use actors::fresh_actor;
pub use editing_at::EditAtError;
pub use error::PeerError;
pub use exchanged::{Outgoing, Received};
pub use links::{Link, MAX_LINKS};
pub use opening::{Unopened, create_journal};
pub use peer::Peer;
pub use sequence::PeerSequence;

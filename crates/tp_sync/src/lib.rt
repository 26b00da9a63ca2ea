//! Peers tell each other what they have, and send what the other lacks.
//!
//! It is after Automerge's sync protocol, without its filters: each message declares the sender's heads and a few of the
//! changes that it has, asks for the changes that it heard of and lacks, and carries changes that are due to the other,
//! dependencies before dependents. What is due follows from what the other declared and wants, and from nothing that was
//! sent, so messages may be lost, come twice or late.
#![tactic(auto)]

mod due;
mod exchanging;
mod generating;
mod known;
pub mod laws;
mod limits;
mod receiving;
mod state;
mod wanting;

pub use exchanging::{Exchanged, exchange};
pub use generating::{generate, generate_bytes};
pub use limits::FULL_BYTES;
pub use receiving::{receive, receive_with};
pub use state::SyncState;
pub use tp_message::{
    MAX_CHANGES, MAX_HASHES, MAX_KNOWN, Message, MessageReader, SyncError, layout,
};

//! Changes: what one edit did, with the changes that it depends on.
//!
//! A change is after Automerge's: an actor, a sequence number, the counter of its first operation, a time, a
//! message, the hashes of the changes that it depends on, and its operations. Its parts and their bytes are those
//! of tp_layout; its hash is the SHA-256 of its bytes.
#![tactic(auto)]

mod bytes;
mod change;
mod counting;
mod facts;
mod gatherer;
pub mod laws;
mod making;
mod op;
mod ops;
mod validating;

pub use change::Change;
pub use op::Op;
pub use ops::Ops;
pub use tp_layout::{
    COUNTERS_END, ChangeError, ChangeParts, MAX_BYTES, MAX_DEPS, MAX_MESSAGE_BYTES, MAX_OPS,
    Record, laws as layout,
};

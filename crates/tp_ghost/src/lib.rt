//! Bytes that contracts see and no memory holds, for proofs alone.
#![tactic(auto)]

mod bytes;

pub use bytes::GhostBytes;

//! Calls on a peer as values, and what is replied to them.
#![tactic(auto)]

mod call;
mod calling;

pub use call::{Call, Reply, Request};

//! Snapshots: what the past of some hashes shows of a text's elements, and what differs between two.
//!
//! A snapshot is made of a graph and of the sequence of the elements that its applied changes insert. Nothing is rebuilt:
//! an element is shown where the past has the operation that inserted it, and none that deletes it.
#![tactic(auto)]

mod author;
mod difference_builder;
mod differences;
mod effects;
mod error;
mod snapshot;
mod targets;
mod views;
mod window;

pub use differences::{Difference, differences_between, differences_since};
pub use effects::{Effect, effect_of};
pub use error::SnapshotError;
pub use snapshot::Snapshot;

//! The graph of changes: which changes are applied, in the order in which they entered, with their heads and
//! pasts, and which wait for changes that they depend on.
//!
//! A change enters only where it fits: see [`GraphError`]. What a past is and how it is found is in the crates below,
//! `tp_history` and `tp_ancestry`; here are what a change is judged by, what is made ready for its entry, and what
//! waits.
#![tactic(auto)]

mod applied;
mod before;
mod check;
mod copies;
mod graph;
mod judge;
mod limits;
mod maker;
mod marked;
mod missing;
mod past;

pub use graph::{Graph, Rejected};
pub use limits::MOST_WAITING;
pub use past::Past;
pub use tp_ancestry::{Clock, Outside, same_hashes};
pub use tp_history::{GraphError, MOST_CHANGES, laws};

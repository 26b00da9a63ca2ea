//! Histories of changes: lists in which each change fits after those before it, by what its hash, its dependencies, its
//! numbers and its references are. What a past, the heads and a defect are is in the definitions, and what follows
//! from these is [`laws`].
//!
//! Changes name those that they depend on by hash, as Git's commits and Automerge's changes do, so a history is a
//! directed graph without cycles, in an order in which dependencies come before dependents.
//!
//! A change of a history is found by its hash with an [`Index`], and an actor's changes with [`ByActor`].
#![tactic(auto)]

mod actor_changes;
mod by_actor;
mod error;
mod index;
pub mod laws;
mod limits;

pub use actor_changes::{ActorChanges, next_to_look_at};
pub use by_actor::ByActor;
pub use error::GraphError;
pub use index::{Index, place_of};
pub use limits::MOST_CHANGES;

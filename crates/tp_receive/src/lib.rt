//! Receiving changes in any order: each that can enter enters, once a keeper kept it; those whose dependencies
//! are missing wait; the others are refused, each with its cause.
//!
//! It goes over whatever holds applied and waiting changes, as a graph or a document does: see [`Replica`].
#![tactic(auto)]

mod admit;
mod coming;
mod error;
mod hashes;
mod intake;
mod keeper;
mod lacking;
pub mod laws;
mod log;
mod replica;
mod settle;
mod take;
mod verdict;

pub use error::ReceiveError;
pub use intake::{Applied, receive};
pub use keeper::{KeepError, Keeper, NoKeeper};
pub use replica::Replica;

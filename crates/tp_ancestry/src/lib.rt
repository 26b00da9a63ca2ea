//! The ancestry of changes: how far the past of each change of a history reaches, kept so that what is in the past of
//! some hashes and what is outside of it, the version vector of a past, and where a change with some dependencies
//! starts are look-ups and comparisons of places, and no walk.
#![tactic(auto)]

mod ancestry;
mod clock;
mod deps;
mod heads;
mod lists;
mod outside;
mod past_set;
mod pasts;
mod since;
mod vector;
mod walk;

pub use ancestry::Ancestry;
pub use clock::Clock;
pub use deps::Behind;
pub use heads::put;
pub use lists::push_within;
pub use outside::Outside;
pub use past_set::{PastSet, vector_in};
pub use vector::VersionVector;
pub use walk::same_hashes;

//! Files of the system: the lock of one, and files by their paths for who isn't given the process.
#![tactic(auto)]

mod lock;
mod place;
mod system;

pub use lock::Lockable;
pub use place::Place;
pub use system::{SystemFile, SystemFiles};

#[cfg(test)]
mod tests;

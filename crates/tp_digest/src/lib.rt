//! SHA-256 of four messages side by side, and digests taken ahead.
//!
//! A vector of four words has a word of each message, so that each step of FIPS 180-4 is taken for the four at once.
//! Four messages of like lengths take a little less than twice the time of one of them. Where their lengths are so
//! unlike that most of the lanes would idle, each is taken alone, by `sha2`. What the digests are is `sha2`'s
//! specification: its rounds and its schedule, lane by lane.
#![tactic(auto)]

mod ahead;
mod four;
mod padded;
mod schedule;
mod state;
mod words;

pub use ahead::Ahead;
pub use four::sha256_of_four;

#[cfg(test)]
mod tests;

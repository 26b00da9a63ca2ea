//! The command line of `textpeer`: which job its words ask for, with its hashes, its key and its address as values.
#![tactic(auto)]

mod address;
mod asking;
mod definition;
mod error;
mod job;
mod parsing;
mod texts;
mod values;

pub use address::Address;
pub use asking::{Asked, words_asked};
pub use error::{LineError, ValueError};
pub use job::{Beside, FileJob, Hosting, Inserted, Job, Subject};
pub use parsing::{Wanted, line};

//! A text file and a journal that are kept in step: which call comes next, what must hold before it, and the state
//! file.
//!
//! The file, NOTE, is one that any editor writes. This crate has no file and no peer: a [`Workspace`] has both, and
//! what its calls ask for is the contract of the whole.
#![tactic(auto)]

mod base;
mod encoding;
mod entries;
mod error;
mod first_use;
mod generations;
mod known;
mod moved;
mod outcome;
mod placing;
mod rounds;
mod starting;
mod state;
mod state_error;
mod state_file;
mod taking;
mod workspace;

pub use entries::Entries;
pub use error::MirrorError;
pub use first_use::Take;
pub use generations::{GENERATIONS, TEXTS};
pub use known::{Digest, Known, TextAt};
pub use moved::forget;
pub use outcome::Outcome;
pub use rounds::round;
pub use starting::start;
pub use state::{Author, Moved, Name, State};
pub use state_error::StateError;
pub use state_file::MAGIC;
pub use workspace::{Change, Look, Source, Workspace};

//! A text file and a journal that are brought in step, on the system's files.
//!
//! tp_mirror says which call comes next and what must hold before it. Here are its calls: on the journal, which is open and
//! locked for a turn, and on the files beside NOTE.
#![tactic(auto)]

mod account;
mod folder;
mod job;
mod looking;
mod paths;
mod quiet;
mod refusal;
#[cfg(test)]
mod tests;
mod texts;
mod turning;
mod workspace;

pub use job::{mirror, turn_on};
pub use looking::look;
pub use paths::{Paths, place_of};

//! The program but for its `main`: from the words of a command line to an exit status. Its jobs on files, and what is printed of
//! these; those over a network are handed on.
#![tactic(auto)]

mod explaining;
mod others;
mod program;
mod rescuing;
mod running;
mod texts;

pub use explaining::{Errors, MISUSED, explain};
pub use program::{Terminals, refused_with, run, run_job, run_words, run_words_on};
pub use running::carry_out;

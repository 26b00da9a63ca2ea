//! What the program tells: refusals of jobs and their lines, notes below these, what is said of sessions and of what was cut off
//! a journal, and how a terminal shows it.
#![tactic(auto)]

mod advice;
mod error;
mod log;
mod notes;
mod telling;
mod terminal;

pub use error::{JobError, Made};
pub use log::{Log, tell_followed, tell_refusal};
pub use notes::{note, note_text};
pub use telling::{
    DONE, REFUSED, applied_text, ended_with, exit_status, output_refusal, put, put_made,
    put_updated, report,
};
pub use terminal::Shown;

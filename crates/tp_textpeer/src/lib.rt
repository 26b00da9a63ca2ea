//! The text of a log of changes, as a function over a reader and a writer.
#![tactic(auto)]

mod chain;
mod entry;
mod error;
mod input;
mod output;
mod refusal;
mod showing;

pub use error::{ShowError, ShowFault};
pub use output::write_out;
pub use refusal::Refusal;
pub use showing::show;

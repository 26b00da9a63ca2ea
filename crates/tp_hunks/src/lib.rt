//! Which lines of one text become which lines of another, by replacements that lead from the one to the other, and how that is
//! printed.
#![tactic(auto)]

mod printing;
mod replacing;
mod text_lines;
mod touching;
mod trimming;
mod unified;
mod words;

pub use printing::hunk_text;
pub use replacing::Replacement;
pub use trimming::{Hunk, file_hunks, hunks};
pub use unified::unified_text;
pub use words::words_text;

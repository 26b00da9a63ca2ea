//! What the commands of `textpeer` do to bytes and journals.
#![tactic(auto)]

mod cutting;
mod diff;
mod editing;
mod error;
mod graph;
pub mod laws;
mod log;
mod naming;
mod pretty;
mod reading;
mod since;
mod status;
mod updating;

pub use diff::{DiffForm, diff_lines};
pub use editing::{begin, edit, merge, reopen};
pub use error::{CommandError, UpdateError};
pub use graph::graph_lines;
pub use log::log_lines;
pub use pretty::pretty_lines;
pub use reading::{
    Recovery, cursor_line, hash_line, head_lines, id_line, made_lines, raw_text, saved_file,
    text_line,
};
pub use since::{Metadata, rewrite_at, update};
pub use status::{Lock, status_lines};
pub use updating::{import, text_in_file};

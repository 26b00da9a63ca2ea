//! A document: the changes of one text, its visible characters, and edits of it.
//!
//! A document keeps the changes of one text as a graph, and beside it the elements that they insert, in the order of
//! the text, with deleted ones as tombstones (RGA: Roh and others 2011). Edits count visible characters and become
//! changes.
#![tactic(auto)]

mod applying;
mod cursor;
mod document;
mod editing;
mod error;
mod forking;
mod history;
mod laws;
mod making;
mod merging;
mod replica;

pub use cursor::Cursor;
pub use document::Document;
pub use error::DocError;
pub use laws::{
    each_past_has_a_text, edit_is_determined, equal_heads_equal_texts,
    later_changes_leave_the_text_at_heads, one_text, text_at_all_heads, text_of_a_set,
};
pub use tp_receive::{Applied, KeepError, Keeper, NoKeeper};
pub use tp_snapshot::{Difference, Effect};

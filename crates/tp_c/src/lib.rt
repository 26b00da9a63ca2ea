//! The engine for C: a handle of an editor, and a function for each of its calls.
//!
//! docs/C.md says what a caller must keep to, and ffi/textpeer.h declares the functions. Each function answers a
//! status, 0 where it was done, and states the clauses of the editor's call again.
#![tactic(auto)]

mod answering;
mod changes;
mod cursors;
mod earlier;
mod editing;
mod handle;
mod hashes;
mod lends;
mod linking;
mod loose;
mod meeting;
mod opening;
mod reading;
mod receiving;
mod slot;
mod splices;
mod status;
mod storing;

pub use changes::{FlatChange, tp_change_at, tp_change_count, tp_change_describe};
pub use cursors::{
    Element, tp_cursor, tp_cursor_position, tp_shared_cursor, tp_shared_cursor_position,
};
pub use earlier::{tp_differences, tp_differences_since, tp_len_at, tp_text_at};
pub use editing::{tp_edit, tp_edit_many, tp_shared_edit, tp_shared_edit_many};
pub use handle::Handle;
pub use linking::{tp_generate, tp_link, tp_receive};
pub use meeting::{tp_shared_begin, tp_shared_end, tp_shared_feed};
pub use opening::{tp_fork, tp_free, tp_open, tp_shared_create, tp_shared_open};
pub use reading::{tp_answer, tp_heads, tp_id, tp_len, tp_text};
pub use receiving::{tp_apply, tp_merge};
pub use slot::Slot;
pub use splices::FlatSplice;
pub use storing::{tp_load, tp_new, tp_save};

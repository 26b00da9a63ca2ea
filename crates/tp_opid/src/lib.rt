//! Identifiers: of peers, of changes, of documents and of operations, with their orders.
#![tactic(auto)]

mod actor;
mod doc_id;
mod hash;
mod hex_text;
mod op_id;

pub use actor::Actor;
pub use doc_id::DocId;
pub use hash::Hash;
pub use hex_text::HexError;
pub use op_id::{OpId, Place};

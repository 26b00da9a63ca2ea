//! What the programs that run rows of data share. A row is a call and the answer that is wanted of it; what makes the
//! calls is each program's own ([`Calls`]), and [`run`] goes over its files.
//!
//! Beside the runner are the words of a row and their values, changes by their names, the calls that more than one
//! program makes, on the fields of changes, on bytes and on documents, and how answers are printed.
#![tactic(auto)]

mod altering;
mod calls;
mod changes;
mod crowds;
mod documents;
mod edits;
mod fault;
mod files;
mod judge;
mod lists;
mod literals;
mod printing;
mod received;
mod rows;
mod runs;
mod shelf;
mod splice;
mod streams;
mod words;

pub use altering::{bytes_of_words, call_on_bytes, derive_bytes, keep_bytes, with_others_at};
pub use calls::Calls;
pub use changes::{call_on_fields, keep_change};
pub use crowds::firsts;
pub use documents::{
    answer_position, answer_text, call_on_documents, document_id, keep_cursor, keep_document,
    read_document, text_of,
};
pub use edits::{Request, name_last, request_of};
pub use fault::{Fault, answer_ok, refusal};
pub use files::run;
pub use judge::{Judge, of_complements, of_cuts};
pub use lists::{UNKNOWN, copies, copy, hashes, inside, push_hashes, range};
pub use literals::{actor, actor_of, byte, bytes, count, id, many, number, place, text};
pub use printing::{in_quotes, names, names_of, put_error, put_id, put_name, put_names};
pub use received::{Few, put_applied, put_kept, reply};
pub use runs::Runs;
pub use shelf::Shelf;
pub use splice::{lend_splices, splices};
pub use streams::{Input, Output};
pub use words::Words;

//! The bytes of a document's journal, and what is recovered from them, also from damaged ones.
//!
//! A journal is a header with the document's identifier, and then a record for each change, in the order in which they
//! entered: its bytes with their length and their digest. A record that wasn't written to its end is left out by a
//! recovery. docs/FORMATS.md says every byte.
#![tactic(auto)]

mod laws;
mod layout;
mod pieces;
mod reading;
mod recovering;
mod rescuing;
mod writing;

pub use laws::{
    beginnings_recover, cut_appends_recover, journals_are_bytes, journals_grow, one_recovery,
    one_refusal, recovered_is_what_recovers, refused_or_recovered,
};
pub use layout::{DIGEST_BYTES, HEADER_BYTES, MAGIC};
pub use pieces::Recovering;
pub use recovering::{Recovered, recover};
pub use rescuing::{Inspection, WholeRecord, holds_record, inspect, rescue, whole_records};
pub use writing::{header, put_record, record};

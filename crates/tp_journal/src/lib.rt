//! The journal of a document: a place where its bytes are kept, one record after another.
//!
//! A [`Journal`] is in memory, in memory that fails where it is set to, in a file, in a file that is brought to the disk, or
//! nowhere. What its bytes are, and what is recovered from them, is in tp_recovery, whose names are here too, as those of
//! the files of the system in tp_file.
#![tactic(auto)]

mod beneath;
mod calls;
mod durable;
mod error;
mod file;
mod fuse;
mod journal;
mod kept;
mod memory;
mod null;
mod opening;
mod optional;
mod read;

pub use durable::DurableJournal;
pub use error::JournalError;
pub use file::FileJournal;
pub use fuse::FuseJournal;
pub use journal::Journal;
pub use memory::MemJournal;
pub use null::NullJournal;
pub use opening::OpenError;
pub use optional::OptionalJournal;
pub use read::ReadJournal;
pub use tp_file::{Lockable, Place, SystemFile, SystemFiles};
pub use tp_recovery::{
    DIGEST_BYTES, HEADER_BYTES, Inspection, MAGIC, Recovered, Recovering, WholeRecord,
    beginnings_recover, cut_appends_recover, header, holds_record, inspect, journals_are_bytes,
    journals_grow, one_recovery, one_refusal, put_record, record, recover,
    recovered_is_what_recovers, refused_or_recovered, rescue,
};

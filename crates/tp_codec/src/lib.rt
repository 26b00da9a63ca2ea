//! Reading binary formats from left to right: a reader over bytes, and the laws that join the fields of a format.
//!
//! Numbers are big-endian. The reader answers `None` where bytes are missing, so that each format names its own
//! refusals. The definitions in specs/Reading say what a format reads with any type of refusals, and
//! proofs/Fields has, for each field, that what is read is spelled so, that what is spelled is read again, and
//! that a fault other than missing bytes stays, whatever follows.
#![tactic(auto)]

mod reader;

pub use reader::Reader;

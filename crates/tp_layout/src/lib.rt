//! The parts of a change, their limits, and their layout in bytes: written, and read up to the first fault.
//!
//! The layout is our own, and docs/FORMATS.md says every byte of it. Parts are kept in a `Body`, which takes no memory
//! for most changes; that they are within the limits is `IsChange`.
#![tactic(auto)]

mod body;
mod copying;
mod error;
pub mod laws;
mod limits;
mod parts;
mod reading;
mod record;
mod sink;
mod size;
mod version;
mod writing;

pub use body::Body;
pub use error::ChangeError;
pub use limits::{
    COUNTERS_END, FEWEST_DELETES, MAX_BYTES, MAX_DEPS, MAX_MESSAGE_BYTES, MAX_OPS, are_counters,
};
pub use parts::ChangeParts;
pub use reading::read_change;
pub use record::Record;
pub use sink::Sink;
pub use size::body_len;
pub use writing::put_change;

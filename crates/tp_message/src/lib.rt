//! Messages that peers send each other, and their bytes.
//!
//! A message declares its sender's heads and a few of the changes that the sender has, asks for changes, and carries
//! changes. Its bytes are a layout of our own: docs/FORMATS.md says every byte. They are read whole, or as they
//! come, and are refused with the first fault.
#![tactic(auto)]

mod error;
pub mod layout;
mod limits;
mod message;
mod reading;
mod stages;
mod writing;

pub use error::SyncError;
pub use limits::{MAX_CHANGES, MAX_HASHES, MAX_KNOWN};
pub use message::{Lists, Message};
pub use reading::MessageReader;
pub use writing::encode_parts;

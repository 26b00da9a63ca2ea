//! The peers of a world, each with its journal in memory, and what an event does to them.
//!
//! Peers join, edit, merge, send messages, receive them, are read, crash and come back. Whether an event may happen is for
//! the caller to know: each that may is a step of the relation that the headline speaks of, or is refused for want of memory.
#![tactic(auto)]

mod entry;
mod event;
mod happening;
mod made;
mod member;
mod members;
mod read_record;
mod reply;
mod state;

pub use entry::Entry;
pub use event::{Call, Event};
pub use made::Made;
pub use member::{Member, record_len};
pub use read_record::ReadRecord;
pub use reply::{Answer, Reply};
pub use state::State;

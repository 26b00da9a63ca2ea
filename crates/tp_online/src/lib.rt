//! The commands over a network: a journal is served to others, and sessions are held with a server or over the standard streams,
//! each on a journal that is on the disk before a session answers.
#![tactic(auto)]

mod accepting;
mod following;
mod hosting;
mod idling;
mod listening;
mod mirrored;
mod mirroring;
mod paging;
mod seating;
mod serving;
mod streaming;
mod watching;

pub use following::{Following, follow_file};
pub use mirrored::Noted;
pub use mirroring::{Keeping, keep_mirror, share_mirror};
pub use paging::web_file;
pub use serving::{Met, Serving, serve_file, sync_file};
pub use streaming::session_file;

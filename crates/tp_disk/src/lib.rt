//! What the program does to files and folders: journals that are opened and left, files that are put in the place of others,
//! what is cut off a journal and kept, and the source of random bytes, under which actors are drawn.
#![tactic(auto)]

mod cutting;
mod files;
mod folders;
mod idle;
mod keys;
mod locks;
mod replacing;
mod stamps;
mod waiting;

pub use cutting::is_cut;
pub use files::{Cause, Disk, Opened};
pub use folders::{Folders, Found};
pub use idle::{IdleJournal, left_stamp};
pub use keys::{draw, draw_actor, generator, key_or_random};
pub use locks::{FileId, lock_in};
pub use replacing::{begins_journal, put_new, replace};
pub use stamps::Stamp;

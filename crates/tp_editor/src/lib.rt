//! What an editor holds of a text: a peer on its journal, links to others, one session at a time by bytes, and the
//! bytes of its last answer.
//!
//! It is for a host that takes bytes and numbers alone and has an event loop of its own: no call waits for another
//! side. Its journal is in a file, where each change is on the disk before the call that made it is done and before a
//! session answers for it; or its changes are in memory alone. A call whose result is bytes keeps them as the answer,
//! until the next such call.
#![tactic(auto)]

mod conversing;
mod editing;
mod editor;
mod error;
mod exchanging;
mod hosting;
mod linking;
mod meeting;
mod opening;

pub use editor::Editor;
pub use error::{EditorError, EditorOpenError};
pub use hosting::{APPLYING, MOST_LINKS, SESSION};

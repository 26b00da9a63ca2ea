//! One session between two sides: what each answers to the frames of the other, with no socket and no thread.
//!
//! The client sends hello and the server answers it; then they exchange messages until both have said done. The rules
//! are `SessionStep` in specs/SessionStep, and docs/FORMATS.md has them in words. A [`Conversation`] is a side that takes
//! the other's bytes as they come.
#![tactic(auto)]

mod conversation;
mod error;
mod host;
pub mod laws;
mod linked;
mod parts;
mod reason;
mod session;
mod turn;

pub use conversation::{Conversation, Next, Output};
pub use error::NetError;
pub use host::Host;
pub use linked::LinkedPeer;
pub use reason::Reason;
pub use session::{Phase, Role, Session, VERSION};
pub use turn::{Ended, Turn};

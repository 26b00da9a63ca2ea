//! A peer that several threads share: behind one word that a thread takes for a call and gives back.
//!
//! Each thread has a seat. A call on a seat takes the word, makes the call on the whole peer, and gives the word back;
//! it is one step of the peer, from what all calls before it left. A seat knows what its own turns found and left, and
//! what it has seen begins what every later turn of it finds.
#![tactic(auto)]

mod absence;
mod closing;
mod error;
mod meeting;
mod opening;
mod rule;
mod seat;
mod served;
mod trying;
mod turn;
mod visitor;
mod waiting;

pub use absence::Absence;
pub use closing::Unclosed;
pub use error::ServedError;
pub use opening::{MAX_SEATS, Unserved};
pub use seat::Seat;
pub use served::Served;
pub use visitor::Visitor;

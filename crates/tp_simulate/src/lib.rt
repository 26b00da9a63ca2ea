//! Scripts of worlds of peers: what each line asks for, and what is printed of it. The names of refusals, as they are printed.
#![tactic(auto)]

mod asked;
mod error;
mod mark;
mod marks;
mod names;
mod parsing;
mod playing;
mod shapes;
mod simulating;
mod telling;
mod words;

pub use error::SimError;
pub use names::{bytes_name, document_name, peer_name};
pub use shapes::shape_of;
pub use simulating::simulate;

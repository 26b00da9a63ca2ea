//! Frames: what two peers send each other over a stream of bytes.
//!
//! A frame is the length of its body in 4 bytes, and the body: a kind and what is after it. A [`Framer`] takes
//! the stream in whatever pieces it comes and gives the frames; [`write_frame`] gives the bytes of one. The bytes are
//! a layout of our own: docs/FORMATS.md says every byte.
#![tactic(auto)]

mod error;
mod frame;
mod framer;
mod history;
mod joining;
pub mod laws;
mod limits;
mod parts;
mod reading;
mod writing;

pub use error::FrameError;
pub use frame::Frame;
pub use framer::Framer;
pub use history::bytes_after_frame;
pub use limits::MAX_BODY;
pub use parts::{Part, PartFramer};
pub use writing::write_frame;

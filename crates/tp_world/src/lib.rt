//! A world of peers that edit one text, and that runs: events happen in it one after another, and each is a step of the
//! relation that the headline speaks of.
//!
//! Peers join, edit, merge, send messages, receive them, are read, crash and come back. A message is received never, once
//! or many times, by any peer, and so are bytes of any origin. What every world keeps makes the headline true of it at
//! every moment: one list holds every element ever inserted, and every text that was read is a part of it.
#![tactic(auto)]

mod foreign;
mod judging;
mod ordering;
mod stepping;
mod verdict;
mod world;

pub use tp_call::{Call as PeerCall, Reply as PeerReply};
pub use tp_event::{Answer, Call, Entry, Event, ReadRecord, Reply};
pub use tp_headline::WorldError;
pub use tp_peer::Link;
pub use world::World;

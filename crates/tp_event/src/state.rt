//! What a world is made of.

use crate::entry::Entry;
use crate::made::Made;
use crate::member::Member;
use crate::read_record::ReadRecord;
use std::alloc::Global;
use tp_opid::{Actor, DocId};

/// What a world has, each in the order in which it came.
#[derive(Drop)]
pub struct State {
    /// The allocator of all that is made in the world.
    pub alloc: Global,
    /// The identifier of the document that the peers edit.
    pub id: DocId,
    /// The peers.
    pub peers: Vec<Member>,
    /// The messages that were sent.
    pub wire: Vec<Entry>,
    /// The changes that were made.
    pub made: Made,
    /// The actors that were named.
    pub used: Vec<Actor>,
    /// What was read.
    pub reads: Vec<ReadRecord>,
}

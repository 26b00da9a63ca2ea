//! What a change is made of.

use crate::record::Record;
use tp_list::{Items, Text};
use tp_opid::{Actor, Hash};

/// The parts of a change. `Change::new` of tp_change validates them.
#[derive(Drop)]
pub struct ChangeParts {
    /// Who made the change.
    pub actor: Actor,
    /// Its number among the actor's changes, from 1.
    pub seq: u64,
    /// The counter of its first operation, from 1. The last operation's is at most 2^48 - 1.
    pub start: u64,
    /// When it was made, as the caller counts time.
    pub time: u64,
    /// A message for people, of at most 65,535 bytes.
    pub message: Text,
    /// The hashes of the changes that it depends on: rising, at most 65,535.
    pub deps: Items<Hash>,
    /// The records, one at least. They have at most 65,536 operations together.
    pub records: Items<Record>,
}

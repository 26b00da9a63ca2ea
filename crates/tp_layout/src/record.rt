//! The records of a change.

use tp_list::Text;
use tp_opid::{OpId, Place};

/// A record of a change: several operations in a row that are spelled together.
#[derive(Drop)]
pub enum Record {
    /// Inserts a run of characters: the first after the reference, each later one after the one before it. Each
    /// takes one counter.
    Insert {
        /// The reference: what the run is placed after.
        after: Place,
        /// The characters, one at least.
        text: Text,
    },
    /// Deletes one element, and takes one counter.
    Delete {
        /// The element that is deleted.
        target: OpId,
    },
    /// Deletes a run of elements: the first, and those of the same actor with the next counters. Each delete takes
    /// one counter.
    DeleteRun {
        /// The element with the lowest counter.
        first: OpId,
        /// How many elements, two at least. The last one's counter is at most 2^48 - 1.
        count: u32,
    },
}

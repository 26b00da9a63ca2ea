//! A name for heads.

use tp_list::{Items, Text};
use tp_opid::Hash;

/// A name for the heads of a peer as they were when it was read.
#[derive(Drop)]
pub struct Mark {
    pub(crate) name: Text,
    pub(crate) heads: Items<Hash>,
}

//! What a call that receives changes has to tell.

use std::alloc::Global;
use tp_graph::GraphError;
use tp_opid::Hash;

/// What is reported of the changes while they are received.
#[derive(Drop)]
pub(crate) struct Log {
    /// The hashes of the changes that entered, in order.
    pub(crate) applied: Vec<Hash>,
    /// The hashes of the changes that were refused, and why, in order.
    pub(crate) refused: Vec<(Hash, GraphError)>,
}

impl Log {
    ghost use Rattle.std.specs.Prelude.{◌≡◌, []};

    /// Nothing is reported yet.
    pub(crate) fn new(alloc: Global) -> Log
        ensures applied { result.applied.items ≡ [] }
        ensures refused { result.refused.items ≡ [] }
    {
        Log {
            applied: Vec::new(alloc),
            refused: Vec::new(alloc),
        }
    }
}

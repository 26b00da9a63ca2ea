//! Why a change or a call was refused.

ghost use Rattle.std.specs.Prelude.{◌≡◌};
ghost use Rattle.tp_history.specs.GraphError.{code_of};
ghost use Rattle.tp_history.specs.declared.error.GraphError.TheVariants.{OutOfMemory};

use std::alloc::{AllocError, AllocFailed};
use thiserror::Error;

/// Why a change doesn't fit the graph, or why a call was refused.
///
/// A change may have several of these faults. The first in the order of the variants up to `SeqClash` is reported,
/// and `Full` where it has none of them.
#[derive(Clone, Copy, Debug, PartialEq, Eq, Error)]
pub enum GraphError {
    /// An applied change has its hash.
    #[error("Known")]
    Known,
    /// A dependency isn't applied.
    #[error("MissingDeps")]
    MissingDeps,
    /// Its sequence number isn't 1 plus the number of its actor's changes in its past.
    #[error("BadSeq")]
    BadSeq,
    /// Its start isn't 1 plus the greatest counter in its past.
    #[error("BadStart")]
    BadStart,
    /// A reference or a target was inserted neither in its past nor earlier in the change.
    #[error("BadReference")]
    BadReference,
    /// An applied change with another hash has its actor and its sequence number.
    #[error("SeqClash")]
    SeqClash,
    /// A hash that was named as a head isn't applied.
    #[error("UnknownHead")]
    UnknownHead,
    /// The graph has 4,294,967,295 changes.
    #[error("Full")]
    Full,
    /// A growth was refused.
    #[error("OutOfMemory")]
    OutOfMemory,
}

impl GraphError {
    /// The number of the refusal, from 1 in the order of the variants.
    pub fn code(&self) -> u8
        ensures { result ≡ code_of self.now }
    {
        match self {
            GraphError::Known => 1,
            GraphError::MissingDeps => 2,
            GraphError::BadSeq => 3,
            GraphError::BadStart => 4,
            GraphError::BadReference => 5,
            GraphError::SeqClash => 6,
            GraphError::UnknownHead => 7,
            GraphError::Full => 8,
            GraphError::OutOfMemory => 9,
        }
    }
}

impl From<AllocError> for GraphError {
    ghost from_gives = { λ _ e. e ≡ OutOfMemory };

    fn from(_e: AllocError) -> GraphError {
        GraphError::OutOfMemory
    }
}

impl<T: Drop> From<AllocFailed<T>> for GraphError {
    ghost from_gives = { λ _ e. e ≡ OutOfMemory };

    fn from(_e: AllocFailed<T>) -> GraphError {
        GraphError::OutOfMemory
    }
}

//! The limits of a graph. Definitions and contracts name the same constants.

/// How many changes wait at most.
pub const MOST_WAITING: usize = 1_024;

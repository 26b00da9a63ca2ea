//! The limits of a history. Definitions and contracts name the same constants.

/// How many changes a history has at most.
pub const MOST_CHANGES: usize = 4_294_967_295;

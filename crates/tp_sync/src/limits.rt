//! When a message that is made is full. Definitions and contracts name the same constant.

/// A message whose changes have this many bytes takes no further one.
pub const FULL_BYTES: usize = 1_048_576;

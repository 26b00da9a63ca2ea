//! How long frames are.

/// The most bytes that the body of a frame has.
pub const MAX_BODY: usize = 16_777_216;

/// How many bytes are before what comes after the kind: the length and the kind.
pub(crate) const HEADER_LEN: usize = 5;

//! The limits of a message. Definitions and contracts name the same constants.

/// The most heads of a message, and the most hashes that it wants.
pub const MAX_HASHES: usize = 65_535;

/// The most hashes of known changes that a message tells of: those before the end of a list by powers of two below 2^32,
/// and no list is longer.
pub const MAX_KNOWN: usize = 32;

/// The most changes of a message.
pub const MAX_CHANGES: usize = 1_024;

//! The layout of a journal in numbers. Definitions and contracts name the same constants.

/// What a journal begins with: `RGAJRNL1`.
pub const MAGIC: [u8; 8] = *b"RGAJRNL1";

/// How many bytes the magic and the document's identifier have.
pub const HEADER_BYTES: usize = 24;

/// How many bytes a change's digest has.
pub const DIGEST_BYTES: usize = 32;

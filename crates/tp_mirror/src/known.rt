//! Texts of the journal that NOTE has or had.

ghost use Rattle.std.specs.Prelude.{◌≡◌, ◌↔◌, [], IfOk, IsTrue};

use std::alloc::{AllocError, Global};
use tp_list::{Items, copy_with_room};
use tp_opid::Hash;

/// The SHA-256 of a text's UTF-8.
#[derive(Clone, Copy, Debug, PartialEq, Eq, PartialOrd, Ord)]
pub struct Digest(pub [u8; 32]);

impl Digest {
    /// That of the empty text.
    pub const EMPTY: Digest = Digest([
        0xe3, 0xb0, 0xc4, 0x42, 0x98, 0xfc, 0x1c, 0x14, 0x9a, 0xfb, 0xf4, 0xc8, 0x99, 0x6f, 0xb9,
        0x24, 0x27, 0xae, 0x41, 0xe4, 0x64, 0x9b, 0x93, 0x4c, 0xa4, 0x95, 0x99, 0x1b, 0x78, 0x52,
        0xb8, 0x55,
    ]);

    /// Whether the two are one digest.
    pub fn is(&self, other: &Digest) -> bool
        ensures { IsTrue result ↔ (self.now ≡ other.now) }
    {
        self == other
    }
}

/// A text, by its digest, and the heads of the journal at which it is the text.
#[derive(Drop)]
pub struct TextAt {
    /// The digest of the text.
    pub digest: Digest,
    /// The heads, rising by their bytes. At none the text is empty.
    pub heads: Items<Hash>,
}

impl TextAt {
    /// The empty text, at no heads. No memory.
    pub fn empty(alloc: Global) -> TextAt
        ensures { result.heads ≡ [] }
    {
        TextAt {
            digest: Digest::EMPTY,
            heads: Items::new(Vec::new(alloc)),
        }
    }

    /// An equal text at equal heads. It takes memory for the heads.
    pub fn copy(&self, alloc: Global) -> Result<TextAt, AllocError>
        ensures { IfOk result (λ copy. copy ≡ self.now) }
    {
        Ok(TextAt {
            digest: self.digest,
            heads: Items::new(copy_with_room(alloc, self.heads.as_slice())?),
        })
    }
}

/// A text that an editor may have loaded, and the generation to which it belongs.
///
/// A text that mirror puts into NOTE begins a generation. One that was read belongs to the generation on whose last
/// text it was made a change.
#[derive(Drop)]
pub struct Known {
    /// The number of the generation. Later ones have higher numbers.
    pub generation: u64,
    /// The text.
    pub text: TextAt,
}

impl Known {
    /// An equal text of the same generation. It takes memory for the heads.
    pub fn copy(&self, alloc: Global) -> Result<Known, AllocError>
        ensures { IfOk result (λ copy. copy ≡ self.now) }
    {
        Ok(Known {
            generation: self.generation,
            text: self.text.copy(alloc)?,
        })
    }
}

//! A reader over bytes.

ghost use Rattle.std.specs.Prelude.{◌≡◌, ◌==◌, ◌<◌, List, ℕ, length, IfNone, IfSome};
ghost use Rattle.std.specs.Int.{w16, w32, w64};
ghost use Rattle.tp_codec.specs.Prefix.{Finds, byte_at, bytes_at, number_at};

use std::marker::Model;

/// Bytes that are read from left to right.
///
/// Contracts see the bytes that are left. A method that answers `None`, since fewer bytes are left than it reads,
/// leaves them all.
#[derive(Drop)]
pub struct Reader<'a> {
    rest: &'a [u8],
}

impl<'a> Model for Reader<'a> {
    ghost use Rattle.std.specs.Prelude.{List, ℕ};

    ghost Value = { List ℕ };

    ghost view = { λ r. r.rest.now };
}

impl<'a> Reader<'a> {
    /// A reader of all of the bytes.
    pub fn new(bytes: &'a [u8]) -> Reader<'a>
        ensures { result ≡ bytes.now }
    {
        Reader { rest: bytes }
    }

    /// How many bytes are left.
    pub fn len(&self) -> usize
        ensures { result ≡ length self.now }
    {
        self.rest.len()
    }

    /// Whether no byte is left.
    pub fn is_empty(&self) -> bool
        ensures { result ≡ (length self.now == 0) }
    {
        self.rest.is_empty()
    }

    /// The next byte.
    #[tactic(auto, unfolding(crate::specs::Prefix::byte_at))]
    pub fn u8(&mut self) -> Option<u8>
        ensures found { Finds (λ b. (b, self.new)) result (byte_at self.old) }
        ensures none { IfNone result (self.new ≡ self.old) }
    {
        match self.rest {
            [] => None,
            [byte, rest @ ..] => {
                let byte = *byte;
                self.rest = rest;
                Some(byte)
            }
        }
    }

    /// The next `n` bytes.
    #[tactic(auto, unfolding(crate::specs::Prefix::bytes_at))]
    pub fn bytes(&mut self, count: usize) -> Option<&'a [u8]>
        ensures found { Finds (λ b. (b.now, self.new)) result (bytes_at count self.old) }
        ensures count { IfSome result (λ b. length b.now ≡ count) }
        ensures none { IfNone result (self.new ≡ self.old) }
    {
        if self.rest.len() < count {
            return None;
        }
        let (prefix, rest) = self.rest.split_at(count);
        self.rest = rest;
        Some(prefix)
    }

    /// The next 16 bytes.
    pub fn array_16(&mut self) -> Option<[u8; 16]>
        ensures found { Finds (λ b. (b, self.new)) result (bytes_at 16 self.old) }
        ensures none { IfNone result (self.new ≡ self.old) }
    {
        match self.bytes(16) {
            None => None,
            Some(bytes) => {
                let mut array = [0; 16];
                array.copy_from_slice(bytes);
                Some(array)
            }
        }
    }

    /// The next 32 bytes.
    pub fn array_32(&mut self) -> Option<[u8; 32]>
        ensures found { Finds (λ b. (b, self.new)) result (bytes_at 32 self.old) }
        ensures none { IfNone result (self.new ≡ self.old) }
    {
        match self.bytes(32) {
            None => None,
            Some(bytes) => {
                let mut array = [0; 32];
                array.copy_from_slice(bytes);
                Some(array)
            }
        }
    }

    /// The next 2 bytes, as a number.
    #[tactic(auto, unfolding(crate::specs::Prefix::number_at, crate::specs::Prefix::bytes_at))]
    pub fn u16(&mut self) -> Option<u16>
        ensures found { Finds (λ n. (n, self.new)) result (number_at w16 self.old) }
        ensures none { IfNone result (self.new ≡ self.old) }
    {
        match self.bytes(2) {
            None => None,
            Some(b) => Some(u16::from_be_bytes([b[0], b[1]])),
        }
    }

    /// The next 4 bytes, as a number.
    #[tactic(auto, unfolding(crate::specs::Prefix::number_at, crate::specs::Prefix::bytes_at))]
    pub fn u32(&mut self) -> Option<u32>
        ensures found { Finds (λ n. (n, self.new)) result (number_at w32 self.old) }
        ensures none { IfNone result (self.new ≡ self.old) }
    {
        match self.bytes(4) {
            None => None,
            Some(b) => Some(u32::from_be_bytes([b[0], b[1], b[2], b[3]])),
        }
    }

    /// The next 8 bytes, as a number.
    #[tactic(auto, unfolding(crate::specs::Prefix::number_at, crate::specs::Prefix::bytes_at))]
    pub fn u64(&mut self) -> Option<u64>
        ensures found { Finds (λ n. (n, self.new)) result (number_at w64 self.old) }
        ensures none { IfNone result (self.new ≡ self.old) }
    {
        match self.bytes(8) {
            None => None,
            Some(b) => Some(u64::from_be_bytes([b[0], b[1], b[2], b[3], b[4], b[5], b[6], b[7]])),
        }
    }
}

//! A digest of all that a workload's calls answered.

use tp_opid::Hash;

/// A number of 64 bits that depends on every byte that was put in, by FNV-1a (Fowler, Noll and Vo).
#[derive(Drop)]
pub struct Digest {
    state: u64,
}

impl Digest {
    /// Of nothing.
    pub fn new() -> Digest {
        Digest {
            state: 0xcbf2_9ce4_8422_2325,
        }
    }

    fn byte(&mut self, byte: u8) {
        self.state = (self.state ^ u64::from(byte)).wrapping_mul(0x0000_0100_0000_01b3);
    }

    /// Puts the bytes in.
    pub fn bytes(&mut self, bytes: &[u8]) {
        for byte in bytes {
            self.byte(*byte);
        }
    }

    /// Puts a number in.
    pub fn number(&mut self, number: usize) {
        self.bytes(&(number as u64).to_be_bytes());
    }

    /// Puts a text in.
    pub fn text(&mut self, text: &str) {
        self.number(text.len());
        self.bytes(text.as_bytes());
    }

    /// Puts a hash in.
    pub fn hash(&mut self, hash: &Hash) {
        let bytes = hash.0;
        self.bytes(&bytes);
    }

    /// Puts hashes in.
    pub fn hashes(&mut self, hashes: &[Hash]) {
        self.number(hashes.len());
        for hash in hashes {
            self.hash(hash);
        }
    }

    /// The number.
    pub fn value(&self) -> u64 {
        self.state
    }
}

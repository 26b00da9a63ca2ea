//! The hash of a change.

ghost use Rattle.std.specs.Prelude.{◌≡◌, ◌↔◌, ℕ, List, length, Ok, IfOk, IsOkUnless};
ghost use Rattle.std.specs.List.{list_any};
ghost use Rattle.std.specs.String.{string_bytes};
ghost use Rattle.hex.specs.Hex.{encode_lower};
ghost use Rattle.tp_opid.specs.HexText.{IsHexOf};
ghost use Rattle.tp_opid.specs.Order.{hash_cmp};

use crate::hex_text::{HexError, read_hex, write_hex};
use std::alloc::Global;
use std::cmp::Ordering;

/// The hash of a change: the SHA-256 of its bytes.
#[derive(Clone, Copy, Debug, PartialEq, Eq, PartialOrd, Ord, Hash)]
pub struct Hash(pub [u8; 32]);

impl Hash {
    ghost use Rattle.tp_opid.specs.Same.{same_hash};

    /// Whether the two are one hash.
    #[tactic(auto, unfolding(crate::specs::Order::hash_cmp, crate::specs::Same::same_hash))]
    pub fn is(&self, other: &Hash) -> bool
        ensures { result ≡ same_hash self.now other.now }
    {
        matches!(self.cmp(other), Ordering::Equal)
    }

    /// How the two compare in the order of their bytes.
    #[tactic(auto, unfolding(crate::specs::Order::hash_cmp))]
    pub fn order(&self, other: &Hash) -> Ordering
        ensures { result ≡ hash_cmp self.now other.now }
    {
        self.cmp(other)
    }

    /// Whether it is one of the hashes. One pass over them.
    pub fn is_among(&self, hashes: &[Hash]) -> bool
        ensures { result ≡ list_any (λ h. same_hash h self.now) hashes.now }
    {
        hashes.iter().any(|h| h.is(self))
    }

    /// The bytes as 64 lower case hexadecimal digits. The only refusal is `OutOfMemory`.
    pub fn to_text(&self, alloc: Global) -> Result<String, HexError>
        ensures text { IfOk result (λ text. string_bytes text ≡ encode_lower self.now.0) }
        ensures err { IsOkUnless result HexError.OutOfMemory }
    {
        write_hex(alloc, &self.0)
    }

    /// The hash that the text has the digits of, in either case. Any other text is refused as `BadHex`.
    pub fn from_text(text: &str) -> Result<Hash, HexError>
        ensures found { IfOk result (λ x. IsHexOf text.now x.0) }
        ensures only { (x : Hash) → length x.0 ≡ 32 → IsHexOf text.now x.0 → result ≡ Ok x }
        ensures err { IsOkUnless result HexError.BadHex }
    {
        Ok(Hash(read_hex(text)?))
    }
}

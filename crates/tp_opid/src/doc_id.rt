//! The identifier of a document.

ghost use Rattle.std.specs.Prelude.{◌≡◌, ◌↔◌, ℕ, List, length, Ok, IfOk, IsOkUnless};
ghost use Rattle.std.specs.String.{string_bytes};
ghost use Rattle.hex.specs.Hex.{encode_lower};
ghost use Rattle.tp_opid.specs.HexText.{IsHexOf};

use crate::hex_text::{HexError, read_hex, write_hex};
use std::alloc::Global;
use std::cmp::Ordering;

/// The identifier of a document, as 16 bytes.
#[derive(Clone, Copy, Debug, PartialEq, Eq, PartialOrd, Ord, Hash)]
pub struct DocId(pub [u8; 16]);

impl DocId {
    ghost use Rattle.tp_opid.specs.Same.{same_doc};

    /// Whether the two are one identifier.
    #[tactic(auto, unfolding(crate::specs::Order::doc_id_cmp, crate::specs::Same::same_doc))]
    pub fn is(&self, other: &DocId) -> bool
        ensures { result ≡ same_doc self.now other.now }
    {
        matches!(self.cmp(other), Ordering::Equal)
    }

    /// The bytes as 32 lower case hexadecimal digits. The only refusal is `OutOfMemory`.
    pub fn to_text(&self, alloc: Global) -> Result<String, HexError>
        ensures text { IfOk result (λ text. string_bytes text ≡ encode_lower self.now.0) }
        ensures err { IsOkUnless result HexError.OutOfMemory }
    {
        write_hex(alloc, &self.0)
    }

    /// The identifier that the text has the digits of, in either case. Any other text is refused as `BadHex`.
    pub fn from_text(text: &str) -> Result<DocId, HexError>
        ensures found { IfOk result (λ x. IsHexOf text.now x.0) }
        ensures only { (x : DocId) → length x.0 ≡ 16 → IsHexOf text.now x.0 → result ≡ Ok x }
        ensures err { IsOkUnless result HexError.BadHex }
    {
        Ok(DocId(read_hex(text)?))
    }
}

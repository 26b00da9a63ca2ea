//! Who makes changes.

ghost use Rattle.std.specs.Prelude.{◌≡◌, ◌↔◌, ℕ, List, length, Ok, IfOk, IsOkUnless};
ghost use Rattle.std.specs.String.{string_bytes};
ghost use Rattle.hex.specs.Hex.{encode_lower};
ghost use Rattle.tp_opid.specs.HexText.{IsHexOf};
ghost use Rattle.tp_opid.specs.Order.{actor_cmp};

use crate::hex_text::{HexError, read_hex, write_hex};
use std::alloc::Global;
use std::cmp::Ordering;

/// Who makes changes: one life of one peer, as 16 bytes.
#[derive(Clone, Copy, Debug, PartialEq, Eq, PartialOrd, Ord, Hash)]
pub struct Actor(pub [u8; 16]);

impl Actor {
    ghost use Rattle.tp_opid.specs.Same.{same_actor};

    /// Whether the two are one actor.
    #[tactic(auto, unfolding(crate::specs::Order::actor_cmp, crate::specs::Same::same_actor))]
    pub fn is(&self, other: &Actor) -> bool
        ensures { result ≡ same_actor self.now other.now }
    {
        matches!(self.cmp(other), Ordering::Equal)
    }

    /// How the two compare in the order of their bytes.
    #[tactic(auto, unfolding(crate::specs::Order::actor_cmp))]
    pub fn order(&self, other: &Actor) -> Ordering
        ensures { result ≡ actor_cmp self.now other.now }
    {
        self.cmp(other)
    }

    /// The bytes as 32 lower case hexadecimal digits. The only refusal is `OutOfMemory`.
    pub fn to_text(&self, alloc: Global) -> Result<String, HexError>
        ensures text { IfOk result (λ text. string_bytes text ≡ encode_lower self.now.0) }
        ensures err { IsOkUnless result HexError.OutOfMemory }
    {
        write_hex(alloc, &self.0)
    }

    /// The actor that the text has the digits of, in either case. Any other text is refused as `BadHex`.
    pub fn from_text(text: &str) -> Result<Actor, HexError>
        ensures found { IfOk result (λ x. IsHexOf text.now x.0) }
        ensures only { (x : Actor) → length x.0 ≡ 16 → IsHexOf text.now x.0 → result ≡ Ok x }
        ensures err { IsOkUnless result HexError.BadHex }
    {
        Ok(Actor(read_hex(text)?))
    }
}

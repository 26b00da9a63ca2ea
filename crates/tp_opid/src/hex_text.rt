//! Identifiers as hexadecimal text.

ghost use Rattle.std.specs.Prelude.{◌≡◌, ℕ, List, length, Ok, IfOk, IsOkUnless};
ghost use Rattle.std.specs.String.{string_bytes};
ghost use Rattle.hex.specs.Hex.{encode_lower};
ghost use Rattle.tp_opid.specs.HexError.{code_of};
ghost use Rattle.tp_opid.specs.HexText.{IsHexOf};
ghost use Rattle.tp_opid.specs.declared.hex_text.HexError.TheVariants.{OutOfMemory};

use hex::FromHex;
use std::alloc::{AllocError, Global};
use thiserror::Error;

/// Why an identifier could not be written as text or read from it.
#[derive(Clone, Copy, Debug, PartialEq, Eq, Error)]
pub enum HexError {
    /// The text isn't two hexadecimal digits for each byte of the identifier.
    #[error("BadHex")]
    BadHex,
    /// A growth was refused.
    #[error("OutOfMemory")]
    OutOfMemory,
}

impl HexError {
    /// The number of the refusal: 1 `BadHex`, 2 `OutOfMemory`.
    pub fn code(&self) -> u8
        ensures { result ≡ code_of self.now }
    {
        match self {
            HexError::BadHex => 1,
            HexError::OutOfMemory => 2,
        }
    }
}

impl From<AllocError> for HexError {
    ghost from_gives = { λ _ e. e ≡ OutOfMemory };

    fn from(_e: AllocError) -> HexError {
        HexError::OutOfMemory
    }
}

// The bytes as lower case digits.
pub(crate) fn write_hex(alloc: Global, bytes: &[u8]) -> Result<String, HexError>
    ensures text { IfOk result (λ text. string_bytes text ≡ encode_lower bytes.now) }
    ensures err { IsOkUnless result HexError.OutOfMemory }
{
    Ok(hex::encode(alloc, bytes)?)
}

// The bytes that the text has the digits of, in either case.
pub(crate) fn read_hex<const N: usize>(text: &str) -> Result<[u8; N], HexError>
    ensures found { IfOk result (IsHexOf text.now) }
    ensures only { (bytes : List ℕ) → length bytes ≡ N → IsHexOf text.now bytes
        → result ≡ Ok bytes }
    ensures err { IsOkUnless result HexError.BadHex }
{
    match <[u8; N] as FromHex>::from_hex(text) {
        Ok(bytes) => Ok(bytes),
        Err(_) => Err(HexError::BadHex),
    }
}

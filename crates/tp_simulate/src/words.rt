//! The words of a line, and what they spell.

ghost use Rattle.std.specs.Prelude.{◌≡◌, ℕ, Some, IfSome};
ghost use Rattle.tp_opid.specs.HexText.{IsHexOf};
ghost use Rattle.tp_simulate.specs.Words.{IsDecimalOf};

use hex::FromHexError;
use std::alloc::{AllocError, Global};
use tp_opid::Actor;

/// How many words a line has at most; the last one is all that is left, blanks among it.
const MOST_WORDS: usize = 5;

/// The words of a line, which one blank each parts.
pub(crate) fn words_of<'a>(alloc: Global, line: &'a str) -> Result<Vec<&'a str>, AllocError> {
    line.splitn(MOST_WORDS, ' ').collect(alloc)
}

/// The number that decimal digits spell, up to 2^64 - 1; `None` where there is a sign or another character.
pub(crate) fn number(word: &str) -> Option<u64>
    ensures found { IfSome result (IsDecimalOf word.now) }
    ensures only { (n : ℕ) → IsDecimalOf word.now n → result ≡ Some n }
{
    if word.starts_with('+') {
        return None;
    }
    word.parse::<u64>().ok()
}

/// The number of a peer, a message, a position or a count; see [`number`].
pub(crate) fn count(word: &str) -> Option<usize>
    ensures found { IfSome result (IsDecimalOf word.now) }
    ensures only { (n : ℕ) → IsDecimalOf word.now n → result ≡ Some n }
{
    match number(word) {
        Some(n) => Some(n as usize),
        None => None,
    }
}

/// The actor that 32 hexadecimal digits spell.
pub(crate) fn actor(word: &str) -> Option<Actor>
    ensures { IfSome result (λ a. IsHexOf word.now a.0) }
{
    match Actor::from_text(word) {
        Ok(actor) => Some(actor),
        Err(_) => None,
    }
}

/// The bytes that hexadecimal digits spell, one or more; `None` where they spell none.
pub(crate) fn bytes(alloc: Global, word: &str) -> Result<Option<Vec<u8>>, AllocError> {
    if word.is_empty() {
        return Ok(None);
    }
    match hex::decode(alloc, word) {
        Ok(bytes) => Ok(Some(bytes)),
        Err(FromHexError::OutOfMemory) => Err(AllocError),
        Err(_) => Ok(None),
    }
}

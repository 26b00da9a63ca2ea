//! Calls on changes and what bytes they are.

use tp_change::Change;
use tp_test_runner::{Fault, Shelf, Words, keep_change, refusal};

// `decode NAME CHANGE`: gives what the bytes are decoded to a name.
fn decode(
    changes: &mut Shelf<Change>,
    bytes: &Shelf<Vec<u8>>,
    words: &mut Words,
) -> Result<String, Fault> {
    let bytes = bytes.get(words.next()?)?;
    let name = words.next()?;
    let made = Change::decode(changes.alloc(), bytes);
    keep_change(changes, name, made)
}

// `encode CHANGE`: its bytes.
fn encode(changes: &Shelf<Change>, words: &mut Words) -> Result<String, Fault> {
    match changes.get(words.next()?)?.encode() {
        Ok(bytes) => Ok(hex::encode(changes.alloc(), bytes.as_slice())?),
        Err(error) => refusal(changes.alloc(), error),
    }
}

// `copy NAME CHANGE`: a copy.
fn keep_copy(changes: &mut Shelf<Change>, words: &mut Words) -> Result<String, Fault> {
    let name = words.next()?;
    let made = changes.get(words.next()?)?.copy();
    keep_change(changes, name, made)
}

// `hash CHANGE`: its hash.
fn hash(changes: &Shelf<Change>, words: &mut Words) -> Result<String, Fault> {
    let hash = changes.get(words.next()?)?.hash();
    match hash.to_text(changes.alloc()) {
        Ok(digits) => Ok(digits),
        Err(_) => Err(Fault::Memory),
    }
}

/// Makes a call on changes and their bytes; `None` where the word is none of these.
pub fn call(
    changes: &mut Shelf<Change>,
    bytes: &Shelf<Vec<u8>>,
    word: &str,
    words: &mut Words,
) -> Option<Result<String, Fault>> {
    Some(match word {
        "decode" if words.rest().len() > 1 => decode(changes, bytes, words),
        "encode" => encode(changes, words),
        "copy" => keep_copy(changes, words),
        "hash" => hash(changes, words),
        _ => return None,
    })
}

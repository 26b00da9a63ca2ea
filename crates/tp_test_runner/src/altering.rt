//! Calls that give bytes a name.

use crate::fault::{Fault, answer_ok};
use crate::literals::{bytes, count, text};
use crate::shelf::Shelf;
use crate::words::Words;
use std::alloc::Global;
use tp_change::Change;

/// The bytes that the digits are, or those of a text, as `"abc"*3`; of all words one after another.
pub fn bytes_of_words(alloc: Global, words: &[String]) -> Result<Vec<u8>, Fault> {
    let mut all = Vec::new(alloc);
    for word in words {
        if word.starts_with('"') {
            all.extend_from_slice(text(alloc, word.as_str())?.as_str().as_bytes())?;
        } else {
            all.extend_from_slice(&bytes(alloc, word.as_str())?)?;
        }
    }
    Ok(all)
}

/// The bytes with others in the place of those from `at` on, as far as they reach.
pub fn with_others_at(
    alloc: Global,
    whole: &[u8],
    at: usize,
    others: &[u8],
) -> Result<Vec<u8>, Fault> {
    let mut all = Vec::from_slice(alloc, whole)?;
    for (i, other) in others.iter().enumerate() {
        if let Some(byte) = all.get_mut(at.saturating_add(i)) {
            *byte = *other;
        }
    }
    Ok(all)
}

/// The bytes with the one at an offset complemented.
pub fn with_complement_at(alloc: Global, whole: &[u8], at: usize) -> Result<Vec<u8>, Fault> {
    let mut all = Vec::from_slice(alloc, whole)?;
    if let Some(byte) = all.get_mut(at) {
        *byte = !*byte;
    }
    Ok(all)
}

// `AT HEX..`.
fn alter(alloc: Global, whole: &[u8], words: &mut Words) -> Result<Vec<u8>, Fault> {
    let at = count(words.next()?)?;
    with_others_at(alloc, whole, at, &bytes_of_words(alloc, words.rest())?)
}

// `HEX..`.
fn with_words_after(alloc: Global, whole: &[u8], words: &Words) -> Result<Vec<u8>, Fault> {
    let mut all = Vec::from_slice(alloc, whole)?;
    all.extend_from_slice(&bytes_of_words(alloc, words.rest())?)?;
    Ok(all)
}

fn cut(alloc: Global, whole: &[u8], len: usize) -> Result<Vec<u8>, Fault> {
    Ok(Vec::from_slice(alloc, whole.get(..len).unwrap_or(whole))?)
}

/// Bytes made of others by a call: `cut LEN`, `complement AT`, `alter AT HEX..`, `beyond HEX..`, or a copy of them.
pub fn derive_bytes(
    alloc: Global,
    whole: &[u8],
    word: &str,
    words: &mut Words,
) -> Result<Vec<u8>, Fault> {
    match word {
        "cut" => cut(alloc, whole, count(words.next()?)?),
        "complement" => with_complement_at(alloc, whole, count(words.next()?)?),
        "alter" => alter(alloc, whole, words),
        "behind" => with_words_after(alloc, whole, words),
        _ => Ok(Vec::from_slice(alloc, whole)?),
    }
}

fn bytes_of_change(changes: &Shelf<Change>, name: &str) -> Result<Vec<u8>, Fault> {
    changes.get(name)?.encode().ok().ok_or(Fault::Memory)
}

// Adds the length of a change's bytes, and these.
fn push_entry(all: &mut Vec<u8>, bytes: &[u8]) -> Result<(), Fault> {
    let len = u32::try_from(bytes.len())
        .ok()
        .ok_or(Fault::Row("too long"))?;
    all.extend_from_slice(&len.to_be_bytes())?;
    Ok(all.extend_from_slice(bytes)?)
}

fn push_part(changes: &Shelf<Change>, all: &mut Vec<u8>, part: &str) -> Result<(), Fault> {
    if let Some(name) = part.strip_prefix("change:") {
        return Ok(all.extend_from_slice(&bytes_of_change(changes, name)?)?);
    }
    if let Some(name) = part.strip_prefix("log:") {
        return push_entry(all, &bytes_of_change(changes, name)?);
    }
    Ok(all.extend_from_slice(&bytes(changes.alloc(), part)?)?)
}

// `PART..`: the parts one after another; a part is hexadecimal digits, `change:NAME`, or `log:NAME` for a change's
// length and bytes as they are in a log.
fn parts(changes: &Shelf<Change>, words: &[String]) -> Result<Vec<u8>, Fault> {
    let mut all = Vec::new(changes.alloc());
    for word in words {
        push_part(changes, &mut all, word.as_str())?;
    }
    Ok(all)
}

// `NAME LEN`: `LEN` zeros.
fn zeros(alloc: Global, words: &mut Words) -> Result<Vec<u8>, Fault> {
    let len = count(words.next()?)?;
    Ok(vec![in alloc; 0; len]?)
}

fn make_bytes(
    changes: &Shelf<Change>,
    shelf: &Shelf<Vec<u8>>,
    word: &str,
    words: &mut Words,
) -> Result<Vec<u8>, Fault> {
    match word {
        "bytes" => parts(changes, words.rest()),
        "zeros" => zeros(shelf.alloc(), words),
        _ => derive_bytes(shelf.alloc(), shelf.get(words.next()?)?, word, words),
    }
}

fn keep(
    changes: &Shelf<Change>,
    shelf: &mut Shelf<Vec<u8>>,
    word: &str,
    words: &mut Words,
) -> Result<String, Fault> {
    let name = words.next()?;
    let all = make_bytes(changes, shelf, word, words)?;
    shelf.put(name, all)?;
    answer_ok(shelf.alloc())
}

fn concatenate(shelf: &Shelf<Vec<u8>>, names: &[String]) -> Result<Vec<u8>, Fault> {
    let mut whole = Vec::new(shelf.alloc());
    for name in names {
        whole.extend_from_slice(shelf.get(name.as_str())?)?;
    }
    Ok(whole)
}

/// Gives bytes a name, and answers how many there are.
pub fn keep_bytes(shelf: &mut Shelf<Vec<u8>>, name: &str, all: Vec<u8>) -> Result<String, Fault> {
    let len = all.len();
    shelf.put(name, all)?;
    Ok(format!(in shelf.alloc(); "{len} bytes")?)
}

// `join NAME OF..`: others one after another.
fn join(shelf: &mut Shelf<Vec<u8>>, words: &mut Words) -> Result<String, Fault> {
    let name = words.next()?;
    let whole = concatenate(shelf, words.rest())?;
    keep_bytes(shelf, name, whole)
}

// `digits BYTES`: the bytes, as hexadecimal digits.
fn digits(shelf: &Shelf<Vec<u8>>, words: &mut Words) -> Result<String, Fault> {
    let whole = shelf.get(words.next()?)?;
    hex::encode(shelf.alloc(), whole).ok().ok_or(Fault::Memory)
}

/// Makes a call that gives bytes a name, or shows bytes; `None` where the word is none of these.
///
/// `bytes NAME PART..`, `zeros NAME LEN`, `cut NAME OF LEN`, `complement NAME OF AT`, `alter NAME OF AT HEX`,
/// `beyond NAME OF HEX`, `join NAME OF..` and `digits BYTES`.
pub fn call_on_bytes(
    changes: &Shelf<Change>,
    shelf: &mut Shelf<Vec<u8>>,
    word: &str,
    words: &mut Words,
) -> Option<Result<String, Fault>> {
    Some(match word {
        "bytes" | "zeros" | "cut" | "complement" | "alter" | "behind" => {
            keep(changes, shelf, word, words)
        }
        "join" => join(shelf, words),
        "digits" => digits(shelf, words),
        _ => return None,
    })
}

//! Calls on identifiers: their texts, and their orders.

use std::alloc::Global;
use tp_opid::{Actor, DocId, Hash, HexError};
use tp_test_runner::{Fault, Words, byte, id, many, place, refusal, text};

// The number of one byte each, in their order; `3*7` is three of 7.
fn numbers(alloc: Global, words: &[String]) -> Result<Vec<u8>, Fault> {
    let mut all = Vec::new(alloc);
    for word in words {
        let (times, number) = many(word.as_str());
        let number = byte(number)?;
        for _ in 0..times {
            all.push(number)?;
        }
    }
    Ok(all)
}

// These bytes, and zeros after them.
fn with_zeros<const N: usize>(from: &[u8]) -> [u8; N] {
    let mut bytes = [0; N];
    for (byte, number) in bytes.iter_mut().zip(from) {
        *byte = *number;
    }
    bytes
}

fn answer(alloc: Global, spelled: Result<String, HexError>) -> Result<String, Fault> {
    match spelled {
        Ok(digits) => Ok(digits),
        Err(error) => refusal(alloc, error),
    }
}

// `to_text KIND BYTE..`: the text of the identifier with these bytes.
fn to_text(alloc: Global, words: &mut Words) -> Result<String, Fault> {
    let kind = words.next()?;
    let bytes = numbers(alloc, words.rest())?;
    match kind {
        "actor" => answer(alloc, Actor(with_zeros(&bytes)).to_text(alloc)),
        "document" => answer(alloc, DocId(with_zeros(&bytes)).to_text(alloc)),
        "hash" => answer(alloc, Hash(with_zeros(&bytes)).to_text(alloc)),
        _ => Err(Fault::Row("no such identifiers")),
    }
}

// Bytes as numbers, parted by blanks.
fn numbers_of(alloc: Global, bytes: &[u8]) -> Result<String, Fault> {
    let mut out = String::new(alloc);
    for byte in bytes {
        let blank = if out.is_empty() { "" } else { " " };
        write!(out, "{blank}{byte}")?;
    }
    Ok(out)
}

fn actor_of(alloc: Global, text: &str) -> Result<String, Fault> {
    match Actor::from_text(text) {
        Ok(actor) => numbers_of(alloc, &actor.0),
        Err(error) => refusal(alloc, error),
    }
}

fn document_of(alloc: Global, text: &str) -> Result<String, Fault> {
    match DocId::from_text(text) {
        Ok(document) => numbers_of(alloc, &document.0),
        Err(error) => refusal(alloc, error),
    }
}

fn hash_of(alloc: Global, text: &str) -> Result<String, Fault> {
    match Hash::from_text(text) {
        Ok(hash) => numbers_of(alloc, &hash.0),
        Err(error) => refusal(alloc, error),
    }
}

// `from_text KIND TEXT`: the bytes of the identifier with the text, or the refusal.
fn from_text(alloc: Global, words: &mut Words) -> Result<String, Fault> {
    let kind = words.next()?;
    let text = text(alloc, words.next()?)?;
    match kind {
        "actor" => actor_of(alloc, text.as_str()),
        "document" => document_of(alloc, text.as_str()),
        "hash" => hash_of(alloc, text.as_str()),
        _ => Err(Fault::Row("no such identifiers")),
    }
}

// The name of an order in which just one of the three holds.
fn order_of(alloc: Global, is_below: bool, is_above: bool, is_same: bool) -> Result<String, Fault> {
    let name = match (is_below, is_above, is_same) {
        (true, false, false) => "below",
        (false, true, false) => "above",
        (false, false, true) => "same",
        _ => "no order",
    };
    Ok(String::from_str(alloc, name)?)
}

// `order ID ID`: whether the first identifier is below the second one, above it, or the same.
fn order(alloc: Global, words: &mut Words) -> Result<String, Fault> {
    let (a, b) = (id(words.next()?)?, id(words.next()?)?);
    order_of(alloc, a.is_below(&b), b.is_below(&a), a.is(&b))
}

// `order_places PLACE PLACE`: the same of references.
fn order_places(alloc: Global, words: &mut Words) -> Result<String, Fault> {
    let (a, b) = (place(words.next()?)?, place(words.next()?)?);
    let order = a.order(&b);
    order_of(alloc, order.is_lt(), order.is_gt(), a.is(&b))
}

/// Makes a call on identifiers; `None` where the word is none of these.
pub fn call(alloc: Global, word: &str, words: &mut Words) -> Option<Result<String, Fault>> {
    Some(match word {
        "to_text" => to_text(alloc, words),
        "from_text" => from_text(alloc, words),
        "order" => order(alloc, words),
        "order_places" => order_places(alloc, words),
        _ => return None,
    })
}

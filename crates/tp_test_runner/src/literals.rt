//! Values as words spell them.

use crate::fault::Fault;
use hex::FromHexError;
use std::alloc::Global;
use tp_change::Record;
use tp_list::Text;
use tp_opid::{Actor, OpId, Place};

/// A number.
pub fn number(word: &str) -> Result<u64, Fault> {
    word.parse::<u64>().ok().ok_or(Fault::Row("no number"))
}

/// A number up to 255.
pub fn byte(word: &str) -> Result<u8, Fault> {
    word.parse::<u8>().ok().ok_or(Fault::Row("no number"))
}

/// A number of things in memory.
pub fn count(word: &str) -> Result<usize, Fault> {
    word.parse::<usize>().ok().ok_or(Fault::Row("no number"))
}

// How many elements a run has.
fn run_count(word: &str) -> Result<u32, Fault> {
    word.parse::<u32>().ok().ok_or(Fault::Row("no number"))
}

/// An actor: a number up to 65,535, for its last two bytes after zeros.
pub fn actor(word: &str) -> Result<Actor, Fault> {
    let number = word.parse::<u16>().ok().ok_or(Fault::Row("no actor"))?;
    Ok(actor_of(number))
}

/// The actor whose last two bytes are the number's, after zeros.
pub fn actor_of(number: u16) -> Actor {
    let [high, low] = number.to_be_bytes();
    Actor([0, 0, 0, 0, 0, 0, 0, 0, 0, 0, 0, 0, 0, 0, high, low])
}

/// An identifier: `COUNTER@ACTOR`.
pub fn id(word: &str) -> Result<OpId, Fault> {
    let (counter, who) = word.split_once('@').ok_or(Fault::Row("no identifier"))?;
    Ok(OpId {
        counter: number(counter)?,
        actor: actor(who)?,
    })
}

/// A reference: `start`, or the identifier of the element before it.
pub fn place(word: &str) -> Result<Place, Fault> {
    if word == "start" {
        return Ok(Place::Start);
    }
    Ok(Place::After(id(word)?))
}

// What is between the quotes of a text's word, and how often.
fn quoted_part(word: &str) -> Result<(&str, usize), Fault> {
    let fault = Fault::Row("no text");
    let (inside, beyond) = word
        .strip_prefix('"')
        .ok_or(fault)?
        .split_once('"')
        .ok_or(fault)?;
    match beyond.strip_prefix('*') {
        Some(times) => Ok((inside, count(times)?)),
        None if beyond.is_empty() => Ok((inside, 1)),
        None => Err(fault),
    }
}

/// A text: `"abc"`, or `"abc"*3` for three times that, one after another. `\n` is a newline.
pub fn text(alloc: Global, word: &str) -> Result<String, Fault> {
    let (inside, times) = quoted_part(word)?;
    let mut text = String::new(alloc);
    for _ in 0..times {
        text.push_str(inside)?;
    }
    Ok(text)
}

// What deletes: `ID` one element, `ID*N` a run of N from it on.
fn removal(word: &str) -> Result<Record, Fault> {
    match word.split_once('*') {
        Some((first, count)) => Ok(Record::DeleteRun {
            first: id(first)?,
            count: run_count(count)?,
        }),
        None => Ok(Record::Delete { target: id(word)? }),
    }
}

// Records of one kind: `-ID` and `-ID*N` delete, and `PLACE+TEXT` inserts after an element.
fn record(alloc: Global, word: &str) -> Result<Record, Fault> {
    if let Some(deleted) = word.strip_prefix('-') {
        return removal(deleted);
    }
    let (after, inserted) = word.split_once('+').ok_or(Fault::Row("no record"))?;
    Ok(Record::Insert {
        after: place(after)?,
        text: Text::new(text(alloc, inserted)?),
    })
}

/// Records, each a word; `3*WORD` is three like it.
pub fn records(alloc: Global, words: &[String]) -> Result<Vec<Record>, Fault> {
    let mut made = Vec::new(alloc);
    for word in words {
        push_records(alloc, &mut made, word.as_str())?;
    }
    Ok(made)
}

fn push_records(alloc: Global, made: &mut Vec<Record>, word: &str) -> Result<(), Fault> {
    let (times, word) = many(word);
    for _ in 0..times {
        made.push(record(alloc, word)?)?;
    }
    Ok(())
}

/// How many things a word stands for, and the word of one: `3*WORD` is three, and any other word one.
pub fn many(word: &str) -> (usize, &str) {
    if let Some((times, rest)) = word.split_once('*') {
        if let Ok(times) = times.parse::<usize>() {
            return (times, rest);
        }
    }
    (1, word)
}

/// Bytes, as hexadecimal digits.
pub fn bytes(alloc: Global, word: &str) -> Result<Vec<u8>, Fault> {
    match hex::decode(alloc, word) {
        Ok(bytes) => Ok(bytes),
        Err(FromHexError::OutOfMemory) => Err(Fault::Memory),
        Err(_) => Err(Fault::Row("no bytes")),
    }
}

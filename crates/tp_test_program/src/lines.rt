//! Names for long words, and texts with these names in their place.

use std::alloc::Global;
use tp_test_runner::{Fault, Shelf, Words, answer_ok, text};

/// `let NAME WORD`: the name stands for the word.
pub fn give_name(names: &mut Shelf<String>, words: &mut Words) -> Result<String, Fault> {
    let name = words.next()?;
    let word = String::from_str(names.alloc(), words.next()?)?;
    names.put(name, word)?;
    words.end()?;
    answer_ok(names.alloc())
}

// The text with a newline for each `\n`.
fn with_newlines(alloc: Global, text: &str) -> Result<String, Fault> {
    let mut out = String::new(alloc);
    for (i, part) in text.split("\\n").enumerate() {
        if i > 0 {
            out.push('\n')?;
        }
        out.push_str(part)?;
    }
    Ok(out)
}

/// What a word of a row stands for: a text in quotes, what has the name after `$`, or itself.
pub fn meaning_of(names: &Shelf<String>, word: &str) -> Result<String, Fault> {
    if let Some(name) = word.strip_prefix('$') {
        return Ok(names.get(name)?.clone()?);
    }
    if word.starts_with('"') {
        let text = text(names.alloc(), word)?;
        return with_newlines(names.alloc(), text.as_str());
    }
    Ok(String::from_str(names.alloc(), word)?)
}

/// The words of a command line, the program's name first.
pub fn command_line(names: &Shelf<String>, words: &[String]) -> Result<Vec<String>, Fault> {
    let mut line = Vec::new(names.alloc());
    line.push(String::from_str(names.alloc(), "textpeer")?)?;
    for word in words {
        line.push(meaning_of(names, word.as_str())?)?;
    }
    Ok(line)
}

/// The line of a script that the words stand for: the words separated by one blank each, with what has a name in place
/// of `$` and the name, and a newline.
pub fn script_line(names: &Shelf<String>, words: &[String]) -> Result<String, Fault> {
    let mut line = String::new(names.alloc());
    for (i, word) in words.iter().enumerate() {
        if i > 0 {
            line.push(' ')?;
        }
        match word.as_str().strip_prefix('$') {
            Some(name) => line.push_str(names.get(name)?.as_str())?,
            None => line.push_str(word.as_str())?,
        }
    }
    line.push('\n')?;
    Ok(line)
}

// Adds a word, or its name where it has one.
fn put_word(names: &Shelf<String>, out: &mut String, word: &str) -> Result<(), Fault> {
    for (name, long) in names.all() {
        if long.as_str() == word {
            out.push('$')?;
            return Ok(out.push_str(name.as_str())?);
        }
    }
    Ok(out.push_str(word)?)
}

fn put_line(names: &Shelf<String>, out: &mut String, line: &str) -> Result<(), Fault> {
    for (i, word) in line.split(' ').enumerate() {
        if i > 0 {
            out.push(' ')?;
        }
        put_word(names, out, word)?;
    }
    Ok(())
}

/// Adds a text in quotes, with names for its words that have one, and `\n` for its newlines.
pub fn put_text(names: &Shelf<String>, out: &mut String, text: &str) -> Result<(), Fault> {
    out.push('"')?;
    for (i, line) in text.split('\n').enumerate() {
        if i > 0 {
            out.push_str("\\n")?;
        }
        put_line(names, out, line)?;
    }
    Ok(out.push('"')?)
}

/// `ok` where the text is a line of the stream, else `no`.
pub fn has_line(alloc: Global, stream: &str, wanted: &str) -> Result<String, Fault> {
    for line in stream.split('\n') {
        if line == wanted {
            return answer_ok(alloc);
        }
    }
    Ok(String::from_str(alloc, "no")?)
}

//! The words of a row.

use crate::fault::Fault;
use std::alloc::Global;

/// The words of a line: blanks part them, but for those within double quotes.
pub fn words_of(alloc: Global, line: &str) -> Result<Vec<String>, Fault> {
    let mut words = Vec::new(alloc);
    let mut word = String::new(alloc);
    let mut is_quoted = false;
    for ch in line.chars() {
        if ch == '"' {
            is_quoted = !is_quoted;
        }
        if ch == ' ' && !is_quoted {
            words.push(word)?;
            word = String::new(alloc);
        } else {
            word.push(ch)?;
        }
    }
    words.push(word)?;
    if is_quoted {
        return Err(Fault::Row("a quote isn't closed"));
    }
    Ok(words)
}

/// The words of a row, taken one after another.
#[derive(Clone, Copy, Drop)]
pub struct Words<'a> {
    left: &'a [String],
}

impl<'a> Words<'a> {
    /// All of the words are left.
    pub fn new(words: &'a [String]) -> Words<'a> {
        Words { left: words }
    }

    /// The next word, or none.
    pub fn take(&mut self) -> Option<&'a str> {
        match self.left.split_first() {
            Some((word, left)) => {
                self.left = left;
                Some(word.as_str())
            }
            None => None,
        }
    }

    /// The next word, which has to be there.
    pub fn next(&mut self) -> Result<&'a str, Fault> {
        self.take().ok_or(Fault::Row("a word is missing"))
    }

    /// The word after `KEY=`, where the next word begins with that.
    pub fn option(&mut self, key: &str) -> Option<&'a str> {
        let (found, value) = self.left.first()?.as_str().split_once('=')?;
        if found != key {
            return None;
        }
        let _word = self.take();
        Some(value)
    }

    /// No word is left.
    pub fn end(&self) -> Result<(), Fault> {
        if self.left.is_empty() {
            Ok(())
        } else {
            Err(Fault::Row("there are words too many"))
        }
    }

    /// The words that are left.
    pub fn rest(&self) -> &'a [String] {
        self.left
    }
}

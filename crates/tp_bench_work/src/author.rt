//! An author: what somebody who writes a text does next.

use crate::chance::Chance;
use std::alloc::Global;
use tp_edit::Splice;

// What is typed: mostly letters and blanks, now and then a line's end or a character of two to four bytes.
const CHARS: [char; 64] = [
    'e', 't', 'a', 'o', 'i', 'n', 's', 'r', 'h', 'l', 'd', 'c', 'u', 'm', 'f', 'p', 'g', 'w', 'y',
    'b', 'v', 'k', 'e', 't', 'a', 'o', 'i', 'n', 's', 'r', 'h', 'l', 'd', 'e', 't', 'a', 'o', ' ',
    ' ', ' ', ' ', ' ', ' ', ' ', ' ', ' ', '.', ',', 'E', 'T', 'A', '\n', '\n', '0', '1', '2',
    'é', 'ß', 'ü', 'Ж', 'λ', '漢', '字', '😀',
];

/// An edit: characters deleted at a position, and a text inserted there.
#[derive(Drop)]
pub struct Typed {
    at: usize,
    del: usize,
    text: String,
}

impl Typed {
    /// The edit as a splice.
    pub fn splice(&self) -> Splice<'_> {
        Splice {
            at: self.at,
            del: self.del,
            text: self.text.as_str(),
        }
    }
}

/// Where somebody writes, and how far in what they do.
///
/// Most of the time a run of characters is typed, one edit each; now and then some are taken back, a piece is replaced
/// by a pasted text, or the cursor goes elsewhere.
#[derive(Drop)]
pub struct Author {
    cursor: usize,
    reach: usize,
    to_type: usize,
    to_erase: usize,
}

impl Author {
    /// Begins at a position, and goes on within `reach` characters of where they are.
    pub fn at(cursor: usize, reach: usize) -> Author {
        Author {
            cursor,
            reach,
            to_type: 0,
            to_erase: 0,
        }
    }

    // Goes elsewhere in a text of `len` characters.
    fn jump(&mut self, chance: &mut Chance, len: usize) {
        let least = self.cursor.saturating_sub(self.reach);
        let most = self.cursor.saturating_add(self.reach).min(len);
        self.cursor = chance.between(least, most).min(len);
    }

    // Decides what comes next.
    fn decide(&mut self, chance: &mut Chance, len: usize) {
        match chance.below(8) {
            0 | 1 | 2 => self.jump(chance, len),
            3 | 4 => self.to_erase = chance.between(1, 12),
            _ => {}
        }
        self.to_type = chance.between(4, 60);
    }

    // A piece replaced by a text of up to 200 characters.
    fn paste(&mut self, alloc: Global, chance: &mut Chance, len: usize) -> anyhow::Result<Typed> {
        let del = chance.below(120).min(len.saturating_sub(self.cursor));
        let count = chance.between(1, 200);
        let text = text_of(alloc, chance, count)?;
        let at = self.cursor;
        self.cursor = self.cursor.saturating_add(count);
        Ok(Typed { at, del, text })
    }

    // The character before the cursor taken back.
    fn erase(&mut self, alloc: Global) -> Typed {
        self.to_erase = self.to_erase.saturating_sub(1);
        self.cursor = self.cursor.saturating_sub(1);
        Typed {
            at: self.cursor,
            del: 1,
            text: String::new(alloc),
        }
    }

    // The next character typed.
    fn strike(&mut self, alloc: Global, chance: &mut Chance) -> anyhow::Result<Typed> {
        let at = self.cursor;
        self.to_type = self.to_type.saturating_sub(1);
        self.cursor = self.cursor.saturating_add(1);
        let text = text_of(alloc, chance, 1)?;
        Ok(Typed { at, del: 0, text })
    }

    /// What comes next in a text of `len` characters.
    pub fn next(
        &mut self,
        alloc: Global,
        chance: &mut Chance,
        len: usize,
    ) -> anyhow::Result<Typed> {
        self.cursor = self.cursor.min(len);
        if self.to_type == 0 {
            self.decide(chance, len);
            if chance.below(16) == 0 {
                return self.paste(alloc, chance, len);
            }
        }
        if self.to_erase > 0 && self.cursor > 0 {
            return Ok(self.erase(alloc));
        }
        self.strike(alloc, chance)
    }
}

/// A text of `count` characters.
pub fn text_of(alloc: Global, chance: &mut Chance, count: usize) -> anyhow::Result<String> {
    let mut text = String::new(alloc);
    for _ in 0..count {
        text.push(CHARS[chance.below(64) % 64])?;
    }
    Ok(text)
}

//! The script of an example, and what makes its calls.

use crate::lines::{give_name, script_line};
use crate::printed::{compare_lines, last_line, line_before, printed_by, text_of};
use std::alloc::Global;
use std::fs;
use std::rt::Files;
use tp_test_runner::{Calls, Fault, Shelf, Words, bytes};

/// The script of an example so far, and names for long words.
#[derive(Drop)]
pub struct Script<'a, R> {
    rt: &'a R,
    names: Shelf<String>,
    bytes: Vec<u8>,
}

// The text of a file.
fn read<R: Files + AllocGlobal>(rt: &R, name: &str) -> Result<String, Fault> {
    match fs::read(rt, name) {
        Ok(all) => text_of(rt.alloc(), &all),
        Err(_) => Err(Fault::Row("the file can't be read")),
    }
}

// What is printed of the last line of a script, and whether the script was run to its end.
fn last_of(alloc: Global, script: &[u8]) -> Result<(bool, String), Fault> {
    match printed_by(alloc, script)? {
        Ok(text) => Ok((true, line_before(alloc, text.as_str())?)),
        Err(number) => Ok((false, format!(in alloc; "line {number}")?)),
    }
}

impl<'a, R: Files + AllocGlobal> Script<'a, R> {
    /// No line yet.
    pub fn new(rt: &'a R) -> Script<'a, R> {
        Script {
            rt,
            names: Shelf::new(rt.alloc()),
            bytes: Vec::new(rt.alloc()),
        }
    }

    // Puts bytes after the script, and answers what is printed of its last line. Where the script is refused, they are
    // taken away again.
    fn add(&mut self, more: &[u8]) -> Result<String, Fault> {
        let len = self.bytes.len();
        self.bytes.extend_from_slice(more)?;
        let ran = last_of(self.rt.alloc(), &self.bytes);
        match ran {
            Ok((true, answer)) => Ok(answer),
            Ok((false, answer)) => {
                self.bytes.truncate(len);
                Ok(answer)
            }
            Err(fault) => {
                self.bytes.truncate(len);
                Err(fault)
            }
        }
    }

    // `raw HEX`: bytes after the script, as they are.
    fn raw(&mut self, words: &mut Words) -> Result<String, Fault> {
        let more = bytes(self.rt.alloc(), words.next()?)?;
        self.add(&more)
    }

    // `end`: how many lines the script prints, and the last one.
    fn end(&self) -> Result<String, Fault> {
        let alloc = self.rt.alloc();
        match printed_by(alloc, &self.bytes)? {
            Ok(text) => {
                let (count, last) = last_line(alloc, text.as_str())?;
                Ok(format!(in alloc; "{count} lines, {last}")?)
            }
            Err(number) => Ok(format!(in alloc; "line {number}")?),
        }
    }

    // `whole FILE WANTED`: the number of lines that the script of a file prints, where they are those of another file.
    fn whole(&self, words: &mut Words) -> Result<String, Fault> {
        let alloc = self.rt.alloc();
        let script = read(self.rt, words.next()?)?;
        let wanted = read(self.rt, words.next()?)?;
        match printed_by(alloc, script.as_str().as_bytes())? {
            Ok(text) => compare_lines(alloc, text.as_str(), wanted.as_str()),
            Err(number) => Ok(format!(in alloc; "line {number}")?),
        }
    }
}

impl<R: Files + AllocGlobal> Calls for Script<'_, R> {
    fn call(&mut self, words: &mut Words) -> Result<String, Fault> {
        let all = words.rest();
        match words.next()? {
            "let" => give_name(&mut self.names, words),
            "raw" => self.raw(words),
            "end" => self.end(),
            "whole" => self.whole(words),
            _ => {
                let line = script_line(&self.names, all)?;
                self.add(line.as_str().as_bytes())
            }
        }
    }

    fn clear(&mut self) {
        self.names.clear();
        self.bytes.clear();
    }

    fn is_partial(&self, _row: &str) -> bool {
        false
    }
}

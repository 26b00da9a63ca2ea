//! What the rows of an example have made so far, and what makes their calls.

use crate::answers::Ran;
use crate::folder::make;
use crate::lines::{give_name, has_line, meaning_of};
use crate::locks::lock_of;
use crate::{files, journals, runs};
use std::fs::File;
use std::rt::Files;
use tp_test_runner::{Calls, Fault, Shelf, Words};

/// What the rows of an example have made so far; their files lie in the folder.
#[derive(Drop)]
pub struct World<'a, R> {
    /// What has the files.
    pub rt: &'a R,
    /// Names for long words.
    pub names: Shelf<String>,
    /// What the last run did.
    pub ran: Option<Ran>,
    // The folder is there, with what this example put into it.
    is_made: bool,
}

impl<'a, R: Files + AllocGlobal> World<'a, R> {
    /// Nothing made yet.
    pub fn new(rt: &'a R) -> World<'a, R> {
        World {
            rt,
            names: Shelf::new(rt.alloc()),
            ran: None,
            is_made: false,
        }
    }

    // Makes the folder anew, at the first row of an example.
    fn make_folder(&mut self) -> Result<(), Fault> {
        if !self.is_made {
            make(self.rt)?;
            self.is_made = true;
        }
        Ok(())
    }

    // `out TEXT` and `err TEXT`: whether the text is a line of that stream of the last run.
    fn has(&self, word: &str, words: &mut Words) -> Result<String, Fault> {
        let wanted = meaning_of(&self.names, words.next()?)?;
        match (word, &self.ran) {
            ("out", Some(ran)) => has_line(self.rt.alloc(), ran.out.as_str(), wanted.as_str()),
            ("err", Some(ran)) => has_line(self.rt.alloc(), ran.err.as_str(), wanted.as_str()),
            _ => Err(Fault::Row("no such call")),
        }
    }
}

impl<R: Files<File = File> + AllocGlobal + Clone + Drop> Calls for World<'_, R> {
    fn call(&mut self, words: &mut Words) -> Result<String, Fault> {
        let word = words.next()?;
        self.make_folder()?;
        if word == "let" {
            return give_name(&mut self.names, words);
        }
        if word == "lock" {
            return lock_of(&self.names, words);
        }
        if let Some(answer) = files::call(self.rt, word, words) {
            return answer;
        }
        if let Some(answer) = journals::call(self.rt, word, words) {
            return answer;
        }
        if let Some(answer) = runs::call(self, word, words) {
            return answer;
        }
        self.has(word, words)
    }

    fn clear(&mut self) {
        self.names.clear();
        self.ran = None;
        self.is_made = false;
    }

    fn is_partial(&self, _row: &str) -> bool {
        false
    }
}

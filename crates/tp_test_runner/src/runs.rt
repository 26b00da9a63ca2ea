//! Answers for each of many numbers, like ones put together.

use crate::fault::Fault;
use std::alloc::Global;

/// Answers for the numbers from 0 on: `0..58 Short, 58 ok`.
#[derive(Drop)]
pub struct Runs {
    alloc: Global,
    line: String,
    from: usize,
    next: usize,
    answer: String,
}

impl Runs {
    /// No answers, for the numbers from `from` on.
    pub fn new(alloc: Global, from: usize) -> Runs {
        Runs {
            alloc,
            line: String::new(alloc),
            from,
            next: from,
            answer: String::new(alloc),
        }
    }

    // Writes the numbers that have the answer so far.
    fn write(&mut self) -> Result<(), Fault> {
        let (from, next) = (self.from, self.next);
        let answer = self.answer.as_str();
        if from == next {
            return Ok(());
        }
        if !self.line.is_empty() {
            self.line.push_str(", ")?;
        }
        if next.saturating_sub(from) == 1 {
            write!(self.line, "{from} {answer}")?;
        } else {
            write!(self.line, "{from}..{next} {answer}")?;
        }
        Ok(())
    }

    /// Adds the answer for the next number.
    pub fn add(&mut self, answer: String) -> Result<(), Fault> {
        if answer.as_str() != self.answer.as_str() {
            self.write()?;
            self.from = self.next;
            self.answer = answer;
        }
        if self.next < usize::MAX {
            self.next += 1;
        }
        Ok(())
    }

    /// All of the answers.
    pub fn end(mut self) -> Result<String, Fault> {
        self.write()?;
        Ok(self.line)
    }
}

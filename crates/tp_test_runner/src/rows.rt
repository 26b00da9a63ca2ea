//! A row: a call, and the answer that is wanted of it.

use crate::calls::Calls;
use crate::fault::Fault;
use crate::literals::count;
use crate::words::{Words, words_of};
use std::alloc::Global;

/// Runs rows, one after another.
#[derive(Drop)]
pub struct Runner<C> {
    alloc: Global,
    calls: C,
    is_refused: bool,
}

/// What became of a row.
#[derive(Drop)]
pub enum Outcome {
    /// It answered as it is wanted to.
    AsWanted,
    /// It answered this instead.
    Differs(String),
    /// It couldn't be run.
    Fault(Fault),
}

impl<C: Calls> Runner<C> {
    /// No row has run yet.
    pub fn new(alloc: Global, calls: C) -> Runner<C> {
        Runner {
            alloc,
            calls,
            is_refused: false,
        }
    }

    /// Whether a call was answered by `OutOfMemory`, and then made again.
    pub fn is_refused(&self) -> bool {
        self.is_refused
    }

    /// A file begins: forgets what rows have made.
    pub fn begin(&mut self, file: &str) {
        self.calls.begin(file);
        self.calls.clear();
    }

    /// An example begins: forgets what the one before it made.
    pub fn clear(&mut self) {
        self.calls.clear();
    }

    // Makes a call; where it is refused memory, it is made again.
    fn call_again(&mut self, words: Words) -> Result<String, Fault> {
        let mut first = words;
        let answer = self.calls.call(&mut first);
        if answer != Err(Fault::Refused) {
            return answer;
        }
        self.is_refused = true;
        let mut second = words;
        self.calls.call(&mut second)
    }

    // `times N CALL..` is the call so often, and the last answer.
    fn call_times(&mut self, words: Words) -> Result<String, Fault> {
        let mut rest = words;
        if rest.next()? != "times" {
            return self.call_again(words);
        }
        let times = count(rest.next()?)?;
        let mut answer = String::new(self.alloc);
        for _ in 0..times {
            answer = self.call_again(rest)?;
        }
        Ok(answer)
    }

    fn answer_of(&mut self, call: &str) -> Result<String, Fault> {
        let words = words_of(self.alloc, call)?;
        self.call_times(Words::new(&words))
    }

    /// Runs a row: `CALL => ANSWER`, or `CALL !=> ANSWER` where any other answer is wanted, or a call alone where `ok`
    /// is.
    pub fn outcome_of(&mut self, row: &str) -> Outcome {
        let (call, is_wanted, wanted) = parts_of(row);
        let was_refused = self.is_refused;
        self.is_refused = false;
        let answer = self.answer_of(call);
        let is_excused = self.is_refused && self.calls.is_partial(call);
        self.is_refused = self.is_refused || was_refused;
        match answer {
            Ok(_) if is_excused => Outcome::AsWanted,
            Ok(answer) if (answer.as_str() == wanted) == is_wanted => Outcome::AsWanted,
            Ok(answer) => Outcome::Differs(answer),
            Err(fault) => Outcome::Fault(fault),
        }
    }
}

// The call of a row, whether it is to answer what is after the arrow, and that.
fn parts_of(row: &str) -> (&str, bool, &str) {
    match (row.split_once(" !=> "), row.split_once(" => ")) {
        (Some((call, other)), _) => (call, false, other),
        (None, Some((call, wanted))) => (call, true, wanted),
        (None, None) => (row, true, "ok"),
    }
}

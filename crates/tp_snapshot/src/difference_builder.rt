//! Differences, made element by element.

ghost use Rattle.std.specs.Prelude.{◌≡◌, ◌<◌, ◌≤◌, ◌+◌, [], ◌∷◌, ◌++◌, length, OnOk, IfOk, is_ok, if◌then◌else◌};
ghost use Rattle.tp_snapshot.specs.Common.{chars, string_bytes};
ghost use Rattle.tp_snapshot.specs.Differences.{count_up_to, difference_if_any, TakesElement};

use crate::differences::Difference;
use std::alloc::{AllocError, Global};
use std::marker::Model;
use tp_list::Text;

// Adds a character. Where memory is short the text stays.
fn push_char(text: &mut String, ch: char) -> Result<(), AllocError>
    ensures { chars (string_bytes text.new)
        ≡ (if is_ok result then chars (string_bytes text.old) ++ ch ∷ [] else chars (string_bytes text.old)) }
{
    let _utf8 = text.as_str();
    text.push(ch)
}

/// The differences of a walk so far, with one that still grows: it ends at an element that both texts show.
#[derive(Drop)]
pub(crate) struct DifferenceBuilder {
    alloc: Global,
    // Where it begins in the text that those before it leave, and how many characters it deletes.
    at: usize,
    del: usize,
    // What it inserts, and how many characters that is. One buffer serves all.
    text: String,
    count: usize,
    found: Vec<Difference>,
}

impl Model for DifferenceBuilder {
    ghost use Rattle.std.specs.Prelude.{◌≡◌, length};
    ghost use Rattle.tp_snapshot.specs.Common.{chars, string_bytes};
    ghost use Rattle.tp_snapshot.specs.Differences.{BuilderState};

    ghost Value = { BuilderState };

    ghost view = { λ b. record { at = b.at; del = b.del; text = chars (string_bytes b.text); found = b.found.items } };

    ghost invariant = { λ b. b.count ≡ length (chars (string_bytes b.text)) };
}

impl DifferenceBuilder {
    /// Where no element was taken yet, and both texts show `at` characters before the first. No memory.
    pub(crate) fn new(alloc: Global, at: usize) -> DifferenceBuilder
        ensures { result ≡ record { at = at; del = 0; text = []; found = [] } }
    {
        DifferenceBuilder {
            alloc,
            at,
            del: 0,
            text: String::new(alloc),
            count: 0,
            found: Vec::new(alloc),
        }
    }

    // Ends the difference, and begins one after it.
    fn close(&mut self) -> Result<(), AllocError>
        requires { count_up_to self.old ≤ usize.MAX }
        ensures { OnOk result
            (self.new ≡ record {
              at = self.old.at + length self.old.text;
              del = 0;
              text = [];
              found =
                  self.old.found ++ difference_if_any self.old.at self.old.del self.old.text;
            }) }
    {
        if self.del == 0 && self.count == 0 {
            return Ok(());
        }
        let text = Text::of(self.alloc, self.text.as_str())?;
        self.found.push(Difference {
            at: self.at,
            del: self.del,
            text,
        })?;
        self.at += self.count;
        self.del = 0;
        self.text.clear();
        self.count = 0;
        Ok(())
    }

    /// Takes the next element: `shown` says whether the old text shows its character, and `shows` whether the new one
    /// does.
    pub(crate) fn take(&mut self, shown: bool, shows: bool, ch: char) -> Result<(), AllocError>
        requires { count_up_to self.old < usize.MAX }
        ensures takes { OnOk result (TakesElement self.old self.new shown shows ch) }
        ensures count { OnOk result (count_up_to self.new ≤ count_up_to self.old + 1) }
    {
        match (shown, shows) {
            (true, true) => {
                self.close()?;
                self.at += 1;
            }
            (true, false) => self.del += 1,
            (false, true) => {
                push_char(&mut self.text, ch)?;
                self.count += 1;
            }
            (false, false) => {}
        }
        Ok(())
    }

    /// All differences, where no element is left.
    pub(crate) fn finish(self) -> Result<Vec<Difference>, AllocError>
        requires { count_up_to self ≤ usize.MAX }
        ensures { IfOk result
            (λ all. all.items ≡ self.found ++ difference_if_any self.at self.del self.text) }
    {
        let mut builder = self;
        builder.close()?;
        let DifferenceBuilder {
            alloc: _,
            at: _,
            del: _,
            text: _,
            count: _,
            found,
        } = builder;
        Ok(found)
    }
}

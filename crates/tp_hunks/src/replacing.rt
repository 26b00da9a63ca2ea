//! Replacements in a text, and the newlines that they pass.

ghost use Rattle.std.specs.Prelude.{◌≡◌, ◌≤◌, IfOk, drop, length};
ghost use Rattle.tp_hunks.specs.Lines.{LeadsText, newline_count, steps_of};

use std::alloc::{AllocError, Global};

/// One replacement in a text: some characters go, and others come in their place.
#[derive(Clone, Copy)]
pub struct Replacement<'a> {
    /// How many characters are before it, in the text that the replacements before it leave.
    pub at: usize,
    /// How many characters go.
    pub del: usize,
    /// What comes in their place, which may be empty.
    pub text: &'a [char],
}

/// How many newlines a replacement passes.
#[derive(Clone, Copy)]
pub(crate) struct Step {
    /// Those that stay, after the replacement before it.
    pub stay: usize,
    /// Those that go.
    pub gone: usize,
    /// Those that come.
    pub come: usize,
}

// How many newlines are among the characters.
fn newlines(text: &[char]) -> usize
    ensures { result ≡ newline_count text.now }
{
    text.iter().filter(|ch| **ch == '\n').count()
}

/// What is after the first `count` characters.
pub(crate) fn after_first(text: &[char], count: usize) -> &[char]
    requires { count ≤ length text.now }
    ensures { result.now ≡ drop count text.now }
{
    &text[count..]
}

/// The newlines that each replacement passes, where they lead from the old text to the new one.
pub(crate) fn steps(
    alloc: Global,
    old: &[char],
    new: &[char],
    replacements: &[Replacement],
) -> Result<Vec<Step>, AllocError>
    requires { LeadsText old.now new.now 0 replacements.now }
    ensures { IfOk result (λ steps. steps.items ≡ steps_of old.now 0 replacements.now) }
{
    let mut steps = Vec::new(alloc);
    let mut rest = old;
    let mut after = 0usize;
    for replacement in replacements {
        let stay = replacement.at - after;
        let beyond = &rest[stay..];
        steps.push(Step {
            stay: newlines(&rest[..stay]),
            gone: newlines(&beyond[..replacement.del]),
            come: newlines(replacement.text),
        })?;
        rest = after_first(beyond, replacement.del);
        after = replacement.at + replacement.text.len();
    }
    Ok(steps)
}

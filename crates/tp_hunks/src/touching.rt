//! Which lines replacements touch.

ghost use Rattle.std.specs.Prelude.{◌≡◌, ◌+◌, ◌<◌, ◌≤◌, ◌^◌, IfOk};
ghost use Rattle.tp_hunks.specs.Lines.{new_passed, old_passed};
ghost use Rattle.tp_hunks.specs.Touching.{lines_at_start, joined_with, touched_after as lines_after, touched_lines as lines_touched};

use crate::replacing::Step;
use std::alloc::{AllocError, Global};

/// A group of lines that are touched, by the places of its first and last line in both texts, from 0.
#[derive(Clone, Copy)]
pub(crate) struct Touched {
    /// The first line in the old text.
    pub old_first: usize,
    /// The last one.
    pub old_last: usize,
    /// The first line in the new text.
    pub new_first: usize,
    /// The last one.
    pub new_last: usize,
}

// The lines that a replacement touches, after those that the one before it touched.
fn touched_after(group: &Touched, step: &Step) -> Touched
    requires old { group.now.old_last + step.now.stay + step.now.gone ≤ usize.MAX }
    requires new { group.now.new_last + step.now.stay + step.now.come ≤ usize.MAX }
    ensures { result ≡ lines_after group.now step.now }
{
    let old_first = group.old_last + step.stay;
    let new_first = group.new_last + step.stay;
    Touched {
        old_first,
        old_last: old_first + step.gone,
        new_first,
        new_last: new_first + step.come,
    }
}

// The lines that were touched, and these too.
fn lines_of_both(group: &Touched, more: &Touched) -> Touched
    ensures { result ≡ joined_with group.now more.now }
{
    Touched {
        old_first: group.old_first,
        old_last: more.old_last,
        new_first: group.new_first,
        new_last: more.new_last,
    }
}

/// The groups of lines that replacements touch, by the newlines that they pass.
pub(crate) fn touched_lines(alloc: Global, steps: &[Step]) -> Result<Vec<Touched>, AllocError>
    requires old { old_passed steps.now < 2 ^ 63 }
    requires new { new_passed steps.now < 2 ^ 63 }
    ensures { IfOk result (λ groups. groups.items ≡ lines_touched steps.now) }
{
    let mut groups = Vec::new(alloc);
    let start = Touched {
        old_first: 0,
        old_last: 0,
        new_first: 0,
        new_last: 0,
    };
    if steps.is_empty() {
        return Ok(groups);
    }
    let mut group = touched_after(&start, &steps[0]);
    for step in &steps[1..] {
        let next = touched_after(&group, step);
        if step.stay <= 1 {
            group = lines_of_both(&group, &next);
        } else {
            groups.push(group)?;
            group = next;
        }
    }
    groups.push(group)?;
    Ok(groups)
}

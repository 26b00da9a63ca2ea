//! Hunks: which lines become which.

ghost use Rattle.std.specs.Prelude.{◌≡◌, ◌++◌, IfOk, OnOk, map};
ghost use Rattle.tp_hunks.specs.Lines.{LeadsText};
ghost use Rattle.tp_hunks.specs.Hunks.{AreFileHunks, AreHunks, hunk_if_any, hunk_of as hunk_of_lines, hunks_of_groups, lines_up_to as lines_through};

use crate::replacing::{Replacement, steps};
use crate::text_lines::{file_lines, lines, lines_up_to, same_end, same_start};
use crate::touching::{Touched, touched_lines};
use std::alloc::{AllocError, Global};

/// Some lines of an old text, and those of a new one that come in their place. Places are counted from 0.
#[derive(Clone, Copy, Debug, PartialEq, Eq)]
pub struct Hunk {
    /// How many lines of the old text come before it.
    pub old_at: usize,
    /// How many of its lines go.
    pub old_len: usize,
    /// How many lines of the new text come before it.
    pub new_at: usize,
    /// How many lines come.
    pub new_len: usize,
}

// The hunk of a group of lines: without those that stay as they are at its start and its end.
fn hunk_of(old: &[&[char]], new: &[&[char]], group: &Touched) -> Hunk
    ensures { result ≡ hunk_of_lines group.now
        (lines_through group.now.old_first group.now.old_last (map (λ l. l.now) old.now))
        (lines_through group.now.new_first group.now.new_last (map (λ l. l.now) new.now)) }
{
    let gone = lines_up_to(old, group.old_first, group.old_last);
    let come = lines_up_to(new, group.new_first, group.new_last);
    let front = same_start(gone, come);
    let back = same_end(&gone[front..], &come[front..]);
    Hunk {
        old_at: group.old_first + front,
        old_len: gone.len() - front - back,
        new_at: group.new_first + front,
        new_len: come.len() - front - back,
    }
}

// Puts the hunk after the others, if it changes anything.
fn put_hunk(hunks: &mut Vec<Hunk>, hunk: Hunk) -> Result<(), AllocError>
    ensures { OnOk result (hunks.new.items ≡ hunks.old.items ++ hunk_if_any hunk) }
{
    if hunk.old_len == 0 && hunk.new_len == 0 {
        return Ok(());
    }
    Ok(hunks.push(hunk)?)
}

// The hunks of the groups of lines.
fn hunks_in(
    alloc: Global,
    old: &[&[char]],
    new: &[&[char]],
    groups: &[Touched],
) -> Result<Vec<Hunk>, AllocError>
    ensures { IfOk result (λ hunks. hunks.items
        ≡ hunks_of_groups (map (λ l. l.now) old.now) (map (λ l. l.now) new.now) groups.now) }
{
    let mut hunks = Vec::new(alloc);
    for group in groups {
        put_hunk(&mut hunks, hunk_of(old, new, group))?;
    }
    Ok(hunks)
}

/// The hunks from an old text to a new one, by the replacements that lead from the one to the other. They rise, at
/// least one line is between two of them, and each changes something. Each is of lines that replacements touch: a
/// replacement touches the lines from that of its first character up to that after its last one. Lines that are alike
/// at the start or the end of what is touched are left out, and there are no hunks where the texts are the same.
///
/// A pass over both texts.
pub fn hunks(
    alloc: Global,
    old: &[char],
    new: &[char],
    replacements: &[Replacement],
) -> Result<Vec<Hunk>, AllocError>
    requires { LeadsText old.now new.now 0 replacements.now }
    ensures { IfOk result (λ hunks. AreHunks old.now new.now replacements.now hunks.items) }
{
    if old == new {
        return Ok(Vec::new(alloc));
    }
    let steps = steps(alloc, old, new, replacements)?;
    let groups = touched_lines(alloc, &steps)?;
    let old_lines = lines(alloc, old)?;
    let new_lines = lines(alloc, new)?;
    hunks_in(alloc, &old_lines, &new_lines, &groups)
}

/// The hunks from an old text to a new one as files have lines: each line ends in its newline, except the last one where the
/// text doesn't end in one. So there is no empty line after a last newline, and a last line that gets a newline changes. They
/// are of lines that replacements touch, as [`hunks`] says, and none where the texts are the same.
///
/// A pass over both texts.
pub fn file_hunks(
    alloc: Global,
    old: &[char],
    new: &[char],
    replacements: &[Replacement],
) -> Result<Vec<Hunk>, AllocError>
    requires { LeadsText old.now new.now 0 replacements.now }
    ensures { IfOk result (λ hunks. AreFileHunks old.now new.now replacements.now hunks.items) }
{
    let steps = steps(alloc, old, new, replacements)?;
    let groups = touched_lines(alloc, &steps)?;
    let old_lines = file_lines(alloc, old)?;
    let new_lines = file_lines(alloc, new)?;
    hunks_in(alloc, &old_lines, &new_lines, &groups)
}

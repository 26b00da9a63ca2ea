//! Hunks as they are printed.

ghost use Rattle.std.specs.Prelude.{◌≡◌, ◌++◌, IfOk, OnOk, encode_utf8, map};
ghost use Rattle.std.specs.List.{flat_map};
ghost use Rattle.std.specs.String.{string_bytes};
ghost use Rattle.tp_hunks.specs.Lines.{lines_of_text};
ghost use Rattle.tp_hunks.specs.Printing.{first_number as number_of_first, hunk_lines as lines_of_hunk, place_text as text_of_place, places_line as line_of_places, ranges_line as line_of_ranges, signed_line};

use crate::text_lines::{lines, lines_at};
use crate::trimming::Hunk;
use std::alloc::{AllocError, Global};

/// Lines of a text.
#[derive(Clone, Copy)]
pub(crate) struct Range {
    /// How many lines come before them.
    pub at: usize,
    /// How many they are.
    pub len: u128,
}

/// Puts the characters after the text.
pub(crate) fn put_chars(text: &mut String, line: &[char]) -> Result<(), AllocError>
    ensures { OnOk result
        (string_bytes text.new ≡ string_bytes text.old ++ flat_map encode_utf8 line.now) }
{
    for ch in line {
        text.push(*ch)?;
    }
    Ok(())
}

// Puts a line with a sign before it after the text.
fn put_line(text: &mut String, sign: &str, line: &[char]) -> Result<(), AllocError>
    ensures { OnOk result
        (string_bytes text.new ≡ string_bytes text.old ++ signed_line sign.now line.now) }
{
    text.push_str(sign)?;
    put_chars(text, line)?;
    text.push_str("\n")
}

// Puts the lines after the text, each with the sign before it.
fn put_lines(text: &mut String, sign: &str, lines: &[&[char]]) -> Result<(), AllocError>
    ensures { OnOk result (string_bytes text.new
        ≡ string_bytes text.old ++ flat_map (signed_line sign.now) (map (λ l. l.now) lines.now)) }
{
    for line in lines {
        put_line(text, sign, line)?;
    }
    Ok(())
}

// The number of the first of `len` lines.
fn first_number(at: usize, len: u128) -> u128
    ensures { result ≡ number_of_first at len }
{
    if len == 0 { at as u128 } else { at as u128 + 1 }
}

// The number of the first of the lines, and how many they are.
fn range_text(alloc: Global, range: &Range) -> Result<String, AllocError>
    ensures { IfOk result (λ t. string_bytes t ≡ text_of_place range.now.at range.now.len) }
{
    let first = first_number(range.at, range.len);
    let len = range.len;
    format!(in alloc; "{first},{len}")
}

/// The line of the places of some lines in an old text and in a new one.
pub(crate) fn ranges_line(alloc: Global, old: &Range, new: &Range) -> Result<String, AllocError>
    ensures { IfOk result (λ l. string_bytes l ≡ line_of_ranges old.now new.now) }
{
    let old = range_text(alloc, old)?;
    let new = range_text(alloc, new)?;
    format!(in alloc; "@@ -{old} +{new} @@\n")
}

// The line of the places of a hunk.
fn places_line(alloc: Global, hunk: &Hunk) -> Result<String, AllocError>
    ensures { IfOk result (λ l. string_bytes l ≡ line_of_places hunk.now) }
{
    let old = Range {
        at: hunk.old_at,
        len: hunk.old_len as u128,
    };
    let new = Range {
        at: hunk.new_at,
        len: hunk.new_len as u128,
    };
    ranges_line(alloc, &old, &new)
}

// The lines of a hunk.
fn hunk_lines(
    alloc: Global,
    old: &[&[char]],
    new: &[&[char]],
    hunk: &Hunk,
) -> Result<String, AllocError>
    ensures { IfOk result (λ l. string_bytes l
        ≡ lines_of_hunk (map (λ l. l.now) old.now) (map (λ l. l.now) new.now) hunk.now) }
{
    let mut text = places_line(alloc, hunk)?;
    put_lines(&mut text, "-", lines_at(old, hunk.old_at, hunk.old_len))?;
    put_lines(&mut text, "+", lines_at(new, hunk.new_at, hunk.new_len))?;
    Ok(text)
}

// The lines of each hunk.
fn hunk_texts(
    alloc: Global,
    old: &[&[char]],
    new: &[&[char]],
    hunks: &[Hunk],
) -> Result<String, AllocError>
    ensures { IfOk result (λ l. string_bytes l
        ≡ flat_map (lines_of_hunk (map (λ l. l.now) old.now) (map (λ l. l.now) new.now)) hunks.now) }
{
    let mut text = String::new(alloc);
    for hunk in hunks {
        text.push_str(hunk_lines(alloc, old, new, hunk)?.as_str())?;
    }
    Ok(text)
}

/// The hunks from an old text to a new one as they are printed: of each a line `@@ -L,n +M,m @@` of the first line and how many
/// they are, in the old and in the new text, counted from 1 (of no line that of the line before), then the old lines each after
/// a `-`, and the new ones each after a `+`.
///
/// A pass over both texts.
pub fn hunk_text(
    alloc: Global,
    old: &[char],
    new: &[char],
    hunks: &[Hunk],
) -> Result<String, AllocError>
    ensures { IfOk result (λ t. string_bytes t
        ≡ flat_map (lines_of_hunk (lines_of_text old.now) (lines_of_text new.now)) hunks.now) }
{
    let old_lines = lines(alloc, old)?;
    let new_lines = lines(alloc, new)?;
    hunk_texts(alloc, &old_lines, &new_lines, hunks)
}

//! The lines of a text.

ghost use Rattle.std.specs.Prelude.{◌≡◌, ◌<◌, ◌≤◌, ◌-◌, ◌∷◌, IfOk, drop, length, map, take};
ghost use Rattle.tp_hunks.specs.Lines.{file_lines as lines_of_file, has_end, line_len as len_of_line, lines_of_text};
ghost use Rattle.tp_hunks.specs.Hunks.{lines_at as lines_from, lines_up_to as lines_through, same_end as same_at_end, same_start as same_at_start};

use std::alloc::{AllocError, Global};

/// The lines of a text: what its newlines part. The last one is empty where the text ends in a newline.
pub(crate) fn lines<'a>(alloc: Global, text: &'a [char]) -> Result<Vec<&'a [char]>, AllocError>
    ensures { IfOk result
        (λ lines. map (λ l. l.now) lines.items ≡ lines_of_text text.now) }
{
    text.split(|ch| *ch == '\n').collect(alloc)
}

// How many characters the first line has, with its newline.
fn line_len(text: &[char]) -> usize
    ensures most { result ≤ length text.now }
    ensures some { 0 < length text.now → 0 < result }
    ensures len { result ≡ len_of_line text.now }
{
    let mut len = 0usize;
    for ch in text {
        len += 1;
        if *ch == '\n' {
            return len;
        }
    }
    len
}

/// The first line of a text as files have them, and what is after it.
pub(crate) fn first_line(text: &[char]) -> (&[char], &[char])
    requires { 0 < length text.now }
    ensures lines { lines_of_file text.now ≡ result.0.now ∷ lines_of_file result.1.now }
    ensures less { length result.1.now < length text.now }
{
    let len = line_len(text);
    (&text[..len], &text[len..])
}

/// The lines of a text as files have them: each ends in its newline, except the last one where the text doesn't end in one.
pub(crate) fn file_lines<'a>(alloc: Global, text: &'a [char]) -> Result<Vec<&'a [char]>, AllocError>
    ensures { IfOk result
        (λ lines. map (λ l. l.now) lines.items ≡ lines_of_file text.now) }
{
    let mut lines = Vec::new(alloc);
    let mut rest = text;
    while !rest.is_empty() {
        let (line, after) = first_line(rest);
        lines.push(line)?;
        rest = after;
    }
    Ok(lines)
}

/// Whether a line ends in a newline.
pub(crate) fn ends_in_newline(line: &[char]) -> bool
    ensures { result ≡ has_end line.now }
{
    match line.last() {
        Some(ch) => *ch == '\n',
        None => false,
    }
}

// The lines from a place on.
fn from_line<'a, 'b>(lines: &'b [&'a [char]], at: usize) -> &'b [&'a [char]]
    ensures { result.now ≡ drop at lines.now }
{
    if at < lines.len() {
        &lines[at..]
    } else {
        &lines[..0]
    }
}

// The first `len` lines, or all where there are fewer.
fn first_lines<'a, 'b>(lines: &'b [&'a [char]], len: usize) -> &'b [&'a [char]]
    ensures { result.now ≡ take len lines.now }
{
    if len < lines.len() {
        &lines[..len]
    } else {
        lines
    }
}

/// `len` lines from a place on, as far as there are any.
pub(crate) fn lines_at<'a, 'b>(lines: &'b [&'a [char]], at: usize, len: usize) -> &'b [&'a [char]]
    ensures { result.now ≡ lines_from at len lines.now }
{
    first_lines(from_line(lines, at), len)
}

/// The lines from one place up to another, as far as there are any.
pub(crate) fn lines_up_to<'a, 'b>(
    lines: &'b [&'a [char]],
    first: usize,
    last: usize,
) -> &'b [&'a [char]]
    ensures few { length result.now ≤ length lines.now - first }
    ensures lines { result.now ≡ lines_through first last lines.now }
{
    if last < first {
        return first_lines(lines, 0);
    }
    let rest = from_line(lines, first);
    if last - first < rest.len() {
        &rest[..last - first + 1]
    } else {
        rest
    }
}

/// With how many lines that are alike the two begin.
pub(crate) fn same_start(a: &[&[char]], b: &[&[char]]) -> usize
    ensures few { result ≤ length a.now }
    ensures others { result ≤ length b.now }
    ensures same { result ≡ same_at_start (map (λ l. l.now) a.now) (map (λ l. l.now) b.now) }
{
    let mut same = 0usize;
    while same < a.len() && same < b.len() && a[same] == b[same] {
        same += 1;
    }
    same
}

/// With how many lines that are alike they end.
pub(crate) fn same_end(a: &[&[char]], b: &[&[char]]) -> usize
    ensures few { result ≤ length a.now }
    ensures others { result ≤ length b.now }
    ensures same { result ≡ same_at_end (map (λ l. l.now) a.now) (map (λ l. l.now) b.now) }
{
    let mut same = 0usize;
    while same < a.len() && same < b.len() && a[a.len() - 1 - same] == b[b.len() - 1 - same] {
        same += 1;
    }
    same
}

//! Hunks with the lines before and after them, as `patch` takes them.

ghost use Rattle.std.specs.Prelude.{◌≡◌, ◌++◌, IfOk, OnOk, map};
ghost use Rattle.std.specs.List.{flat_map};
ghost use Rattle.std.specs.String.{string_bytes};
ghost use Rattle.tp_hunks.specs.Lines.{file_lines as lines_of_file};
ghost use Rattle.tp_hunks.specs.Hunks.{lines_at as lines_from_place};
ghost use Rattle.tp_hunks.specs.Unified.{lone_block as lone_block_of, block_places, block_text as text_of_block, blocks_of as blocks_of_hunks, changed_lines, file_line, file_lines_text, hunk_with_lines, is_near as are_near, lines_after as count_after, lines_before as count_before, line_end as end_of_line, new_range as range_of_new, old_range as range_of_old, smaller as smaller_of, unified_text as text_of_blocks};

use crate::printing::{Range, put_chars, ranges_line};
use crate::text_lines::{ends_in_newline, file_lines, lines_at};
use crate::trimming::Hunk;
use std::alloc::{AllocError, Global};

/// Hunks that are printed together, since the lines between them are few.
#[derive(Clone, Copy)]
pub(crate) struct Block {
    /// How many hunks come before it.
    pub at: usize,
    /// How many it has.
    pub len: usize,
    /// The first one.
    pub first: Hunk,
    /// The last one.
    pub last: Hunk,
}

// Whether at most twice as many lines are between two hunks as are printed before and after.
fn is_near(context: usize, before: &Hunk, after: &Hunk) -> bool
    ensures { result ≡ are_near context before.now after.now }
{
    let end = before.old_at as u128 + before.old_len as u128;
    let between = (after.old_at as u128).saturating_sub(end);
    between.saturating_sub(context as u128) <= context as u128
}

// A block of one hunk.
fn lone_block(at: usize, hunk: &Hunk) -> Block
    ensures { result ≡ lone_block_of at hunk.now }
{
    Block {
        at,
        len: 1,
        first: *hunk,
        last: *hunk,
    }
}

/// The blocks of the hunks.
pub(crate) fn blocks_of(
    alloc: Global,
    hunks: &[Hunk],
    context: usize,
) -> Result<Vec<Block>, AllocError>
    ensures { IfOk result (λ blocks. blocks.items ≡ blocks_of_hunks context hunks.now) }
{
    let mut blocks = Vec::new(alloc);
    if hunks.is_empty() {
        return Ok(blocks);
    }
    let mut block = lone_block(0, &hunks[0]);
    for hunk in &hunks[1..] {
        if is_near(context, &block.last, hunk) {
            block.len += 1;
            block.last = *hunk;
        } else {
            blocks.push(block)?;
            block = lone_block(block.at + block.len, hunk);
        }
    }
    blocks.push(block)?;
    Ok(blocks)
}

// The smaller of two numbers.
fn smaller(a: usize, b: usize) -> usize
    ensures { result ≡ smaller_of a b }
{
    if a <= b { a } else { b }
}

// How many lines are printed before a block.
fn lines_before(context: usize, block: &Block) -> usize
    ensures { result ≡ count_before context block.now }
{
    smaller(context, block.first.old_at)
}

// How many are printed after it, where the old text has `count` lines.
fn lines_after(context: usize, count: usize, block: &Block) -> usize
    ensures { result ≡ count_after context count block.now }
{
    let end = block.last.old_at as u128 + block.last.old_len as u128;
    smaller(context, (count as u128).saturating_sub(end) as usize)
}

/// The lines of a block in the old text, with those before and after it.
pub(crate) fn old_range(context: usize, count: usize, block: &Block) -> Range
    ensures { result ≡ range_of_old context count block.now }
{
    let at = block
        .first
        .old_at
        .saturating_sub(lines_before(context, block));
    let end = block.last.old_at as u128 + block.last.old_len as u128;
    let to = end + lines_after(context, count, block) as u128;
    Range {
        at,
        len: to.saturating_sub(at as u128),
    }
}

// The lines of a block in the new text, with those before and after it.
fn new_range(context: usize, count: usize, block: &Block) -> Range
    ensures { result ≡ range_of_new context count block.now }
{
    let at = block
        .first
        .new_at
        .saturating_sub(lines_before(context, block));
    let end = block.last.new_at as u128 + block.last.new_len as u128;
    let to = end + lines_after(context, count, block) as u128;
    Range {
        at,
        len: to.saturating_sub(at as u128),
    }
}

// The line of the places of a block.
fn places_line(
    alloc: Global,
    context: usize,
    count: usize,
    block: &Block,
) -> Result<String, AllocError>
    ensures { IfOk result (λ l. string_bytes l ≡ block_places context count block.now) }
{
    ranges_line(
        alloc,
        &old_range(context, count, block),
        &new_range(context, count, block),
    )
}

// What is printed after the characters of a line: of one without a newline a remark that it has none.
fn line_end(line: &[char]) -> &'static str
    ensures { result.now ≡ end_of_line line.now }
{
    if ends_in_newline(line) {
        ""
    } else {
        "\n\\ No newline at end of file\n"
    }
}

// Puts a line after the text, after a sign.
fn put_line(text: &mut String, sign: &str, line: &[char]) -> Result<(), AllocError>
    ensures { OnOk result
        (string_bytes text.new ≡ string_bytes text.old ++ file_line sign.now line.now) }
{
    text.push_str(sign)?;
    put_chars(text, line)?;
    text.push_str(line_end(line))
}

// Puts the lines after the text, each after a sign.
fn put_lines(text: &mut String, sign: &str, lines: &[&[char]]) -> Result<(), AllocError>
    ensures { OnOk result (string_bytes text.new
        ≡ string_bytes text.old ++ file_lines_text sign.now (map (λ l. l.now) lines.now)) }
{
    for line in lines {
        put_line(text, sign, line)?;
    }
    Ok(())
}

// `len` lines from a place on, as far as there are any.
fn lines_from<'a, 'b>(lines: &'b [&'a [char]], at: u128, len: usize) -> &'b [&'a [char]]
    ensures { result.now ≡ lines_from_place at len lines.now }
{
    if at < lines.len() as u128 {
        lines_at(lines, at as usize, len)
    } else {
        &lines[..0]
    }
}

// Puts the lines of a hunk after the text, after the old lines from a place on.
fn put_hunk(
    text: &mut String,
    old: &[&[char]],
    new: &[&[char]],
    at: u128,
    hunk: &Hunk,
) -> Result<(), AllocError>
    ensures { OnOk result (string_bytes text.new ≡ string_bytes text.old
        ++ hunk_with_lines (map (λ l. l.now) old.now) (map (λ l. l.now) new.now) at hunk.now) }
{
    let between = (hunk.old_at as u128).saturating_sub(at) as usize;
    put_lines(text, " ", lines_from(old, at, between))?;
    put_lines(text, "-", lines_at(old, hunk.old_at, hunk.old_len))?;
    put_lines(text, "+", lines_at(new, hunk.new_at, hunk.new_len))?;
    Ok(())
}

// Puts the lines of hunks after the text, with those before, between and after them from a place on.
fn put_hunks(
    text: &mut String,
    old: &[&[char]],
    new: &[&[char]],
    context: usize,
    at: usize,
    hunks: &[Hunk],
) -> Result<(), AllocError>
    ensures { OnOk result (string_bytes text.new ≡ string_bytes text.old ++ changed_lines
        (map (λ l. l.now) old.now) (map (λ l. l.now) new.now) context at hunks.now) }
{
    let mut from = at as u128;
    for hunk in hunks {
        put_hunk(text, old, new, from, hunk)?;
        from = hunk.old_at as u128 + hunk.old_len as u128;
    }
    put_lines(text, " ", lines_from(old, from, context))?;
    Ok(())
}

// The hunks of a block.
fn hunks_in<'a>(hunks: &'a [Hunk], block: &Block) -> &'a [Hunk]
    ensures { result.now ≡ lines_from_place block.now.at block.now.len hunks.now }
{
    let rest = if block.at < hunks.len() {
        &hunks[block.at..]
    } else {
        &hunks[..0]
    };
    if block.len < rest.len() {
        &rest[..block.len]
    } else {
        rest
    }
}

// What is printed of a block.
fn block_text(
    alloc: Global,
    old: &[&[char]],
    new: &[&[char]],
    context: usize,
    hunks: &[Hunk],
    block: &Block,
) -> Result<String, AllocError>
    ensures { IfOk result (λ t. string_bytes t ≡ text_of_block
        (map (λ l. l.now) old.now) (map (λ l. l.now) new.now) context hunks.now block.now) }
{
    let mut text = places_line(alloc, context, old.len(), block)?;
    let from = block
        .first
        .old_at
        .saturating_sub(lines_before(context, block));
    put_hunks(&mut text, old, new, context, from, hunks_in(hunks, block))?;
    Ok(text)
}

// What is printed of blocks.
fn block_texts(
    alloc: Global,
    old: &[&[char]],
    new: &[&[char]],
    context: usize,
    hunks: &[Hunk],
    blocks: &[Block],
) -> Result<String, AllocError>
    ensures { IfOk result (λ t. string_bytes t ≡ flat_map (text_of_block
        (map (λ l. l.now) old.now) (map (λ l. l.now) new.now) context hunks.now) blocks.now) }
{
    let mut text = String::new(alloc);
    for block in blocks {
        text.push_str(block_text(alloc, old, new, context, hunks, block)?.as_str())?;
    }
    Ok(text)
}

/// The hunks from an old text to a new one with the lines before and after them, `context` of them where there are as many, as
/// `patch` takes them: the unified format. Hunks with at most twice as many lines between are printed together: a line
/// `@@ -L,n +M,m @@`, then the lines, after a blank where both texts have them, after a `-` those of the old text alone, and
/// after a `+` those of the new one. After a line without a newline, which is the last one of its text, there is the line
/// `\ No newline at end of file`.
///
/// The hunks are those of [`file_hunks`](crate::file_hunks). A pass over both texts.
pub fn unified_text(
    alloc: Global,
    old: &[char],
    new: &[char],
    hunks: &[Hunk],
    context: usize,
) -> Result<String, AllocError>
    ensures { IfOk result (λ t. string_bytes t
        ≡ text_of_blocks (lines_of_file old.now) (lines_of_file new.now) context hunks.now) }
{
    let old_lines = file_lines(alloc, old)?;
    let new_lines = file_lines(alloc, new)?;
    let blocks = blocks_of(alloc, hunks, context)?;
    block_texts(alloc, &old_lines, &new_lines, context, hunks, &blocks)
}

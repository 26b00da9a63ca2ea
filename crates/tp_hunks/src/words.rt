//! What goes and what comes, within the lines.

ghost use Rattle.std.specs.Prelude.{◌≡◌, ◌≤◌, ◌+◌, ◌++◌, IfOk, OnOk, length, map, slice_get};
ghost use Rattle.std.specs.Fmt.{decimal};
ghost use Rattle.std.specs.List.{flat_map};
ghost use Rattle.std.specs.String.{string_bytes};
ghost use Rattle.tp_hunks.specs.Hunks.{lines_at as lines_from_place};
ghost use Rattle.tp_hunks.specs.Lines.{LeadsText};
ghost use Rattle.tp_hunks.specs.Words.{between_signs as text_between, block_words as words_of_block, changed_from as changed_of, is_change, is_new, is_old, marked_from, marked_lines, numbers_line as line_of_numbers, row_line as line_of_row, piece_text, row_text, rows_of as rows_of_pieces, marked_text, words_of_rows, words_text as words_of_text};

use crate::printing::put_chars;
use crate::replacing::{Replacement, after_first};
use crate::text_lines::{ends_in_newline, first_line};
use crate::trimming::Hunk;
use crate::unified::{Block, blocks_of, old_range};
use std::alloc::{AllocError, Global};

/// What becomes of characters.
#[derive(Clone, Copy)]
pub(crate) enum Mark {
    /// They stay.
    Stays,
    /// They go.
    Goes,
    /// They come.
    Comes,
}

impl Mark {
    // Whether the characters go or come.
    fn is_change(self) -> bool
        ensures { result ≡ is_change self }
    {
        match self {
            Mark::Stays => false,
            Mark::Goes | Mark::Comes => true,
        }
    }

    // Whether they are in the old text.
    fn is_old(self) -> bool
        ensures { result ≡ is_old self }
    {
        match self {
            Mark::Stays | Mark::Goes => true,
            Mark::Comes => false,
        }
    }

    // Whether they are in the new text.
    fn is_new(self) -> bool
        ensures { result ≡ is_new self }
    {
        match self {
            Mark::Stays | Mark::Comes => true,
            Mark::Goes => false,
        }
    }
}

/// Characters of one line, with its newline if that is among them.
#[derive(Clone, Copy)]
pub(crate) struct Piece<'a> {
    /// What becomes of them.
    pub mark: Mark,
    /// The characters.
    pub text: &'a [char],
}

/// Pieces up to a newline, of whichever text it is.
#[derive(Clone, Copy)]
pub(crate) struct Row {
    /// How many pieces come before it.
    pub at: usize,
    /// How many it has.
    pub len: usize,
    /// How many newlines of the old text come before it.
    pub old_at: usize,
    /// How many of the new text.
    pub new_at: usize,
    /// Whether one of its pieces goes or comes.
    pub is_changed: bool,
    /// Whether it ends in a newline.
    pub is_ended: bool,
}

// Puts the characters to the pieces, line by line.
fn put_pieces<'a>(
    pieces: &mut Vec<Piece<'a>>,
    mark: Mark,
    text: &'a [char],
) -> Result<(), AllocError>
    ensures { OnOk result
        (map marked_text pieces.new.items ≡ map marked_text pieces.old.items ++ marked_lines mark text.now) }
{
    let mut rest = text;
    while !rest.is_empty() {
        let (line, after) = first_line(rest);
        pieces.push(Piece { mark, text: line })?;
        rest = after;
    }
    Ok(())
}

// The old text, with what the replacements take out and with what they put in.
fn pieces_of<'a>(
    alloc: Global,
    old: &'a [char],
    new: &[char],
    replacements: &[Replacement<'a>],
) -> Result<Vec<Piece<'a>>, AllocError>
    requires { LeadsText old.now new.now 0 replacements.now }
    ensures { IfOk result (λ pieces. map marked_text pieces.items ≡ marked_from old.now 0 replacements.now) }
{
    let mut pieces = Vec::new(alloc);
    let mut rest = old;
    let mut after = 0usize;
    for replacement in replacements {
        let stay = replacement.at - after;
        let beyond = &rest[stay..];
        put_pieces(&mut pieces, Mark::Stays, &rest[..stay])?;
        put_pieces(&mut pieces, Mark::Goes, &beyond[..replacement.del])?;
        put_pieces(&mut pieces, Mark::Comes, replacement.text)?;
        rest = after_first(beyond, replacement.del);
        after = replacement.at + replacement.text.len();
    }
    put_pieces(&mut pieces, Mark::Stays, rest)?;
    Ok(pieces)
}

// The rows of the pieces.
fn rows_of(alloc: Global, pieces: &[Piece]) -> Result<Vec<Row>, AllocError>
    ensures { IfOk result (λ rows. rows.items ≡ rows_of_pieces (map marked_text pieces.now)) }
{
    let mut rows = Vec::new(alloc);
    let mut row = Row {
        at: 0,
        len: 0,
        old_at: 0,
        new_at: 0,
        is_changed: false,
        is_ended: false,
    };
    for piece in pieces {
        row.len += 1;
        row.is_changed = row.is_changed || piece.mark.is_change();
        if ends_in_newline(piece.text) {
            row.is_ended = true;
            rows.push(row)?;
            row = Row {
                at: row.at + row.len,
                len: 0,
                old_at: if piece.mark.is_old() {
                    row.old_at + 1
                } else {
                    row.old_at
                },
                new_at: if piece.mark.is_new() {
                    row.new_at + 1
                } else {
                    row.new_at
                },
                is_changed: false,
                is_ended: false,
            };
        }
    }
    if row.len != 0 {
        rows.push(row)?;
    }
    Ok(rows)
}

// The rows that changed, each as a hunk of one line.
fn changed_rows(alloc: Global, rows: &[Row]) -> Result<Vec<Hunk>, AllocError>
    ensures { IfOk result (λ hunks. hunks.items ≡ changed_of 0 rows.now) }
{
    let mut hunks = Vec::new(alloc);
    for at in 0..rows.len() {
        if rows[at].is_changed {
            hunks.push(Hunk {
                old_at: at,
                old_len: 1,
                new_at: at,
                new_len: 1,
            })?;
        }
    }
    Ok(hunks)
}

// Puts the characters after the text, between two signs, and their newline after these.
fn put_between(text: &mut String, left: &str, line: &[char], right: &str) -> Result<(), AllocError>
    ensures { OnOk result
        (string_bytes text.new ≡ string_bytes text.old ++ text_between left.now right.now line.now) }
{
    text.push_str(left)?;
    if ends_in_newline(line) {
        put_chars(text, &line[..line.len() - 1])?;
        text.push_str(right)?;
        text.push_str("\n")
    } else {
        put_chars(text, line)?;
        text.push_str(right)
    }
}

// Puts a piece after the text.
fn put_piece(text: &mut String, piece: &Piece) -> Result<(), AllocError>
    ensures { OnOk result
        (string_bytes text.new ≡ string_bytes text.old ++ piece_text (marked_text piece.now)) }
{
    match piece.mark {
        Mark::Stays => put_chars(text, piece.text),
        Mark::Goes => put_between(text, "[-", piece.text, "-]"),
        Mark::Comes => put_between(text, "{+", piece.text, "+}"),
    }
}

// Those at a place and after it, as far as there are any.
fn items_at<T>(items: &[T], at: usize, len: u128) -> &[T]
    ensures { result.now ≡ lines_from_place at len items.now }
{
    let rest = if at < items.len() {
        &items[at..]
    } else {
        &items[..0]
    };
    if len < rest.len() as u128 {
        &rest[..len as usize]
    } else {
        rest
    }
}

// Puts a row after the text.
fn put_row(text: &mut String, pieces: &[Piece], row: &Row) -> Result<(), AllocError>
    ensures { OnOk result
        (string_bytes text.new ≡ string_bytes text.old ++ row_text (map marked_text pieces.now) row.now) }
{
    for piece in items_at(pieces, row.at, row.len as u128) {
        put_piece(text, piece)?;
    }
    if row.is_ended {
        return Ok(());
    }
    text.push_str("\n")?;
    Ok(())
}

// The row at a place, if there is one.
fn row_at(rows: &[Row], at: usize) -> Option<Row>
    ensures { result ≡ slice_get rows.now at }
{
    if at < rows.len() {
        Some(rows[at])
    } else {
        None
    }
}

// The number of the line that this many lines come before, from 1.
fn number_text(alloc: Global, at: usize) -> Result<String, AllocError>
    ensures { IfOk result (λ t. string_bytes t ≡ decimal (at + 1)) }
{
    let number = at as u128 + 1;
    format!(in alloc; "{number}")
}

// The line of the numbers of the lines in which a row begins.
fn line_of(alloc: Global, row: &Row) -> Result<String, AllocError>
    ensures { IfOk result (λ l. string_bytes l ≡ line_of_row row.now) }
{
    let old = number_text(alloc, row.old_at)?;
    let new = number_text(alloc, row.new_at)?;
    let mut line = String::from_str(alloc, "@@ -")?;
    line.push_str(old.as_str())?;
    line.push_str(" +")?;
    line.push_str(new.as_str())?;
    line.push_str(" @@\n")?;
    Ok(line)
}

// That line, where there is a row.
fn numbers_line(alloc: Global, row: Option<Row>) -> Result<String, AllocError>
    ensures { IfOk result (λ l. string_bytes l ≡ line_of_numbers row) }
{
    match row {
        None => Ok(String::new(alloc)),
        Some(row) => line_of(alloc, &row),
    }
}

// What is printed of a block.
fn block_words(
    alloc: Global,
    pieces: &[Piece],
    rows: &[Row],
    context: usize,
    block: &Block,
) -> Result<String, AllocError>
    ensures { IfOk result
        (λ t. string_bytes t ≡ words_of_block (map marked_text pieces.now) rows.now context block.now) }
{
    let range = old_range(context, rows.len(), block);
    let mut text = numbers_line(alloc, row_at(rows, range.at))?;
    for row in items_at(rows, range.at, range.len) {
        put_row(&mut text, pieces, row)?;
    }
    Ok(text)
}

// What is printed of blocks.
fn blocks_words(
    alloc: Global,
    pieces: &[Piece],
    rows: &[Row],
    context: usize,
    blocks: &[Block],
) -> Result<String, AllocError>
    ensures { IfOk result (λ t. string_bytes t
        ≡ flat_map (words_of_block (map marked_text pieces.now) rows.now context) blocks.now) }
{
    let mut text = String::new(alloc);
    for block in blocks {
        text.push_str(block_words(alloc, pieces, rows, context, block)?.as_str())?;
    }
    Ok(text)
}

/// The lines that changed, with what goes between `[-` and `-]` and what comes between `{+` and `+}`, as `git diff --word-diff`
/// prints them, by the replacements that lead from the old text to the new one. A line ends at a newline of either text: one
/// that goes or comes is after the closing sign. Before and after these lines `context` others are printed where there are as
/// many, and before each stretch of lines one that says `@@ -L +M @@`: in which line of the old text and of the new one it
/// begins, from 1.
///
/// A pass over both texts.
pub fn words_text(
    alloc: Global,
    old: &[char],
    new: &[char],
    replacements: &[Replacement],
    context: usize,
) -> Result<String, AllocError>
    requires { LeadsText old.now new.now 0 replacements.now }
    ensures { IfOk result
        (λ t. string_bytes t ≡ words_of_text old.now replacements.now context) }
{
    let pieces = pieces_of(alloc, old, new, replacements)?;
    let rows = rows_of(alloc, &pieces)?;
    let hunks = changed_rows(alloc, &rows)?;
    let blocks = blocks_of(alloc, &hunks, context)?;
    blocks_words(alloc, &pieces, &rows, context, &blocks)
}

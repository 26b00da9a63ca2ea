//! The changes of a document, a line each.

ghost use Rattle.std.specs.Prelude.{◌≡◌, ◌≤◌, ◌++◌, IfOk, IfErr, IsOkUnless, OnOk};
ghost use Rattle.std.specs.List.{flat_map};
ghost use Rattle.std.specs.Str.{chars};
ghost use Rattle.std.specs.String.{string_bytes};
ghost use Rattle.tp_layout.specs.Counts.{count_in};
ghost use Rattle.tp_commands.specs.Refusing.{RefusesJournal};
ghost use Rattle.tp_commands.specs.Log.{AreChangeLines, change_line as line_of_change, delete_count, deleted_count, escaped_char, fields_part, inserted_count, message_part, newest as newest_of};

use crate::error::CommandError;
use crate::reading::{digits, document_in};
use std::alloc::{AllocError, Global};
use tp_change::{Change, Record};
use tp_journal::Recovering;
use tp_peer::PeerSequence;

// How many deletes a record is.
fn deletes(entry: &Record) -> usize
    ensures count { result ≡ delete_count entry.now }
    ensures most { result ≤ count_in entry.now }
{
    match entry {
        Record::Insert { .. } => 0,
        Record::Delete { .. } => 1,
        Record::DeleteRun { count, .. } => *count as usize,
    }
}

// How many of a change's operations delete a character.
pub(crate) fn deletes_in(change: &Change) -> usize
    ensures { result ≡ deleted_count change.now }
{
    let _hash = change.hash();
    let mut count = 0usize;
    for entry in change.records() {
        count += deletes(entry);
    }
    count
}

// How many of them insert one.
pub(crate) fn inserts_in(change: &Change) -> usize
    ensures { result ≡ inserted_count change.now }
{
    change.op_count() - deletes_in(change)
}

// Puts a character after the line: a control character and a backslash as Rust escapes them.
fn put_char(line: &mut String, ch: char) -> Result<(), AllocError>
    ensures { OnOk result (string_bytes line.new ≡ string_bytes line.old ++ escaped_char ch) }
{
    if ch.is_control() || ch == '\\' {
        line.extend(ch.escape_default())
    } else {
        line.push(ch)
    }
}

// Puts the characters of a text after the line.
fn put_escaped(line: &mut String, text: &str) -> Result<(), AllocError>
    ensures { OnOk result
        (string_bytes line.new ≡ string_bytes line.old ++ flat_map escaped_char (chars text.now)) }
{
    for ch in text.chars() {
        put_char(line, ch)?;
    }
    Ok(())
}

// Puts the message after the line, if there is one.
pub(crate) fn put_message(line: &mut String, message: &str) -> Result<(), AllocError>
    ensures { OnOk result
        (string_bytes line.new ≡ string_bytes line.old ++ message_part (chars message.now)) }
{
    if message.is_empty() {
        return Ok(());
    }
    line.push(' ')?;
    put_escaped(line, message)
}

// What the line of a change begins with.
fn fields(alloc: Global, change: &Change) -> Result<String, CommandError>
    ensures ok { IfOk result (λ l. string_bytes l ≡ fields_part change.now) }
    ensures err { IsOkUnless result CommandError.OutOfMemory }
{
    let hash = digits(change.hash().to_text(alloc))?;
    let actor = digits(change.actor().to_text(alloc))?;
    let seq = change.seq();
    let time = change.time();
    let inserted = inserts_in(change);
    let deleted = deletes_in(change);
    Ok(format!(in alloc; "{hash} {actor} {seq} {time} +{inserted} -{deleted}")?)
}

// The line of a change.
fn change_line(alloc: Global, change: &Change) -> Result<String, CommandError>
    ensures ok { IfOk result (λ l. string_bytes l ≡ line_of_change change.now) }
    ensures err { IsOkUnless result CommandError.OutOfMemory }
{
    let mut line = fields(alloc, change)?;
    put_message(&mut line, change.message())?;
    line.push('\n')?;
    Ok(line)
}

// A line for each change.
fn change_lines(alloc: Global, changes: &[Change]) -> Result<String, CommandError>
    ensures lines { IfOk result (λ lines. string_bytes lines ≡ flat_map line_of_change changes.now) }
    ensures err { IsOkUnless result CommandError.OutOfMemory }
{
    let mut lines = String::new(alloc);
    for change in changes {
        lines.push_str(change_line(alloc, change)?.as_str())?;
    }
    Ok(lines)
}

/// The newest of the changes: `most`, or all where they are fewer.
pub(crate) fn newest(changes: &[Change], most: u64) -> &[Change]
    ensures { result.now ≡ newest_of most changes.now }
{
    let from = (changes.len() as u64).saturating_sub(most) as usize;
    &changes[from..]
}

/// A line for each of the newest changes of a journal, as many as said at most, in the order in which they entered: its hash, actor, sequence number,
/// time, `+` and how many characters it inserts, `-` and how many it deletes, and its message if it has one, with control
/// characters escaped.
pub fn log_lines(
    alloc: Global,
    journal: Recovering<PeerSequence>,
    most: u64,
) -> Result<String, CommandError>
    ensures lines { IfOk result (λ lines. AreChangeLines journal most (string_bytes lines)) }
    ensures err { IfErr result (λ e. RefusesJournal journal e) }
{
    let document = document_in(journal)?;
    let lines = change_lines(alloc, newest(document.changes(), most));
    drop(document);
    lines
}

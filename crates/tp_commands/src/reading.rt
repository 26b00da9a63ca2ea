//! What is read of a journal, as the text to print. A journal is what was recovered while its bytes came.

ghost use Rattle.std.specs.Prelude.{◌≡◌, ◌⊎◌, ℕ, Some, None, Ok, IfOk, IfErr, IsOkUnless, IsTrue, OnOk, false};
ghost use Rattle.std.specs.List.{flat_map};
ghost use Rattle.std.specs.Str.{chars};
ghost use Rattle.std.specs.String.{string_bytes};
ghost use Rattle.hex.specs.Hex.{encode_lower};
ghost use Rattle.tp_opid.specs.declared.op_id.OpId.{OpId};
ghost use Rattle.tp_snapshot.specs.Showing.{HasElementAt, HasPosition};
ghost use Rattle.tp_history.specs.Past.{past};
ghost use Rattle.tp_edit.specs.Text.{IsTextOf};
ghost use Rattle.tp_recovery.specs.Recovery.{Recovers};
ghost use Rattle.tp_document.specs.declared.error.DocError.TheVariants as doc;
ghost use Rattle.tp_history.specs.Named.{has_all};
ghost use Rattle.tp_commands.specs.Refusing.{HasNoPosition, HasNoText, RefusesJournal};
ghost use Rattle.tp_commands.specs.Reading.{AreHeadLines, IsCursorLine, IsTextAt, IsTextLine, Saves, changes_at_heads, lines_of_made, hash_line as line_of_hash};
ghost use Rattle.tp_list.specs.Bytes.{line as line_of};

use crate::error::CommandError;
use std::alloc::{AllocError, Global};
use tp_document::{DocError, Document};
use tp_journal::{Recovered, Recovering};
use tp_opid::{DocId, Hash, HexError};
use tp_peer::PeerSequence;
use tp_store::{StoreError, save};

/// A document as it is read of a journal.
pub(crate) type Text = Document<PeerSequence>;

/// What a journal recovers to.
pub type Recovery = Result<Recovered<PeerSequence>, StoreError>;

/// The document of a journal, as `recover` gives it of its bytes.
pub(crate) fn document_in(journal: Recovering<PeerSequence>) -> Result<Text, CommandError>
    ensures ok { IfOk result (λ d. (keep : ℕ) × Recovers journal d.id d.applied keep) }
    ensures err { IfErr result (λ e. RefusesJournal journal e) }
{
    match journal.finish() {
        Ok(recovered) => Ok(recovered.document),
        Err(error) => Err(CommandError::from(error)),
    }
}

// A text and a newline.
fn line(mut text: String) -> Result<String, AllocError>
    ensures { IfOk result (λ l. string_bytes l ≡ line_of (string_bytes text)) }
{
    text.push('\n')?;
    Ok(text)
}

// The text of a document: as it is now, or at the heads where any are given.
pub(crate) fn text_in(document: &Text, heads: &[Hash]) -> Result<String, DocError>
    ensures text { IfOk result (λ text. IsTextOf (changes_at_heads document.now.applied heads.now)
        (chars (string_bytes text))) }
    ensures err { IfErr result (λ e. (e ≡ doc.OutOfMemory)
        ⊎ ((e ≡ doc.UnknownHead) × (has_all document.now.applied heads.now ≡ false))) }
{
    if heads.is_empty() {
        document.text()
    } else {
        document.text_at(heads)
    }
}

// The text of a document at the heads, each of which has to be that of a change.
pub(crate) fn earlier_text(document: &Text, heads: &[Hash]) -> Result<String, DocError>
    ensures text { IfOk result (λ text. IsTextOf (past document.now.applied heads.now)
        (chars (string_bytes text))) }
    ensures known { OnOk result (IsTrue (has_all document.now.applied heads.now)) }
    ensures err { IfErr result (λ e. (e ≡ doc.OutOfMemory)
        ⊎ ((e ≡ doc.UnknownHead) × (has_all document.now.applied heads.now ≡ false))) }
{
    match document.text_at(heads) {
        Ok(text) => Ok(text),
        Err(error) => Err(error),
    }
}

/// The text of a journal and a newline: as it is now, or at the heads where any are given.
pub fn text_line(
    alloc: Global,
    journal: Recovering<PeerSequence>,
    heads: &[Hash],
) -> Result<String, CommandError>
    ensures text { IfOk result (λ l. IsTextLine journal heads.now (string_bytes l)) }
    ensures err { IfErr result (λ e. HasNoText journal heads.now e) }
{
    Ok(line(raw_text(journal, heads)?)?)
}

/// The text of a journal as it is, or at the heads where any are given.
pub fn raw_text(journal: Recovering<PeerSequence>, heads: &[Hash]) -> Result<String, CommandError>
    ensures text { IfOk result (λ text. IsTextAt journal heads.now (string_bytes text)) }
    ensures err { IfErr result (λ e. HasNoText journal heads.now e) }
{
    let document = document_in(journal)?;
    let text = text_in(&document, heads);
    drop(document);
    Ok(text?)
}

// Hexadecimal digits that were made, which is refused for want of memory alone.
pub(crate) fn digits(made: Result<String, HexError>) -> Result<String, CommandError>
    ensures ok { IfOk result (λ text. made ≡ Ok text) }
    ensures err { IsOkUnless result CommandError.OutOfMemory }
{
    match made {
        Ok(text) => Ok(text),
        Err(_) => Err(CommandError::OutOfMemory),
    }
}

/// The identifier in hexadecimal digits, and a newline.
pub fn id_line(alloc: Global, id: &DocId) -> Result<String, CommandError>
    ensures line { IfOk result (λ l. string_bytes l ≡ line_of (encode_lower id.now.0)) }
    ensures err { IsOkUnless result CommandError.OutOfMemory }
{
    Ok(line(digits(id.to_text(alloc))?)?)
}

/// The hash in hexadecimal digits, and a newline.
pub fn hash_line(alloc: Global, hash: &Hash) -> Result<String, CommandError>
    ensures line { IfOk result (λ l. string_bytes l ≡ line_of_hash hash.now) }
    ensures err { IsOkUnless result CommandError.OutOfMemory }
{
    Ok(line(digits(hash.to_text(alloc))?)?)
}

// A line for each hash.
fn hash_lines(alloc: Global, hashes: &[Hash]) -> Result<String, CommandError>
    ensures lines { IfOk result (λ lines. string_bytes lines ≡ flat_map line_of_hash hashes.now) }
    ensures err { IsOkUnless result CommandError.OutOfMemory }
{
    let mut lines = String::new(alloc);
    for hash in hashes {
        lines.push_str(hash_line(alloc, hash)?.as_str())?;
    }
    Ok(lines)
}

/// The lines of the changes that were made, or of `nothing` where none were.
pub fn made_lines(alloc: Global, hashes: &[Hash]) -> Result<String, CommandError>
    ensures lines { IfOk result (λ lines. string_bytes lines ≡ lines_of_made hashes.now) }
    ensures err { IsOkUnless result CommandError.OutOfMemory }
{
    match hashes {
        [] => Ok(String::from_str(alloc, "nothing\n")?),
        _ => hash_lines(alloc, hashes),
    }
}

/// The heads of a journal, rising, a line each.
pub fn head_lines(alloc: Global, journal: Recovering<PeerSequence>) -> Result<String, CommandError>
    ensures lines { IfOk result (λ lines. AreHeadLines journal (string_bytes lines)) }
    ensures err { IfErr result (λ e. RefusesJournal journal e) }
{
    let document = document_in(journal)?;
    let lines = hash_lines(alloc, document.heads());
    drop(document);
    lines
}

// Where the character at a position of the text at the heads is now.
fn position_in(document: &Text, at: usize, heads: &[Hash]) -> Result<usize, DocError>
    ensures ok { IfOk result (λ position. (element : OpId)
        × HasElementAt (past document.now.applied heads.now) at (Some element)
        × HasPosition document.now.applied element (Some position)) }
    ensures err { IfErr result (λ e. (e ≡ doc.OutOfMemory)
        ⊎ (((e ≡ doc.UnknownHead) × (has_all document.now.applied heads.now ≡ false))
        ⊎ (((e ≡ doc.OutOfRange) × HasElementAt (past document.now.applied heads.now) at None)
        ⊎ ((e ≡ doc.UnknownElement) × ((element : OpId)
        × HasElementAt (past document.now.applied heads.now) at (Some element)
        × HasPosition document.now.applied element None))))) }
{
    let cursor = document.cursor_at(at, heads)?;
    document.cursor_position(&cursor)
}

/// Where the character at a position of the text at the heads is now, and a newline.
pub fn cursor_line(
    alloc: Global,
    journal: Recovering<PeerSequence>,
    at: usize,
    heads: &[Hash],
) -> Result<String, CommandError>
    ensures line { IfOk result (λ l. IsCursorLine journal at heads.now (string_bytes l)) }
    ensures err { IfErr result (λ e. HasNoPosition journal at heads.now e) }
{
    let document = document_in(journal)?;
    let position = position_in(&document, at, heads);
    drop(document);
    let position = position?;
    Ok(format!(in alloc; "{position}\n")?)
}

/// The saved file of a journal's document.
pub fn saved_file(alloc: Global, journal: Recovering<PeerSequence>) -> Result<Vec<u8>, CommandError>
    ensures saves { IfOk result (λ bytes. Saves journal bytes.items) }
    ensures err { IfErr result (λ e. RefusesJournal journal e) }
{
    let document = document_in(journal)?;
    let bytes = save(alloc, &document);
    drop(document);
    Ok(bytes?)
}

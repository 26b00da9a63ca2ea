//! What a journal has, a line for each fact.

ghost use Rattle.std.specs.Prelude.{◌≡◌, ◌==◌, ◌≤◌, ℕ, IfOk, IfErr, IsOkUnless, if◌then◌else◌};
ghost use Rattle.std.specs.String.{string_bytes};
ghost use Rattle.tp_snapshot.specs.Showing.{HasLength};
ghost use Rattle.tp_commands.specs.Refusing.{RefusesJournal};
ghost use Rattle.tp_commands.specs.Status.{IsStatus, author_count, document_lines as lines_of_document, head_line as line_of_head, kept_line as line_of_kept, lock_line as line_of_lock, status_heads as lines_of_heads, status_text};

use crate::error::CommandError;
use crate::reading::{Text, hash_line, id_line};
use std::alloc::{AllocError, Global};
use tp_change::Change;
use tp_journal::Recovering;
use tp_opid::Hash;
use tp_peer::PeerSequence;

/// Who has the lock of a journal's file.
#[derive(Clone, Copy, Debug, PartialEq, Eq)]
pub enum Lock {
    /// It can't be known.
    Unknown,
    /// Nobody.
    Free,
    /// The process with this number.
    HeldBy(u32),
}

// One where the change is its actor's first.
fn first(change: &Change) -> usize
    ensures one { result ≡ (if change.now.seq == 1 then 1 else 0) }
    ensures most { result ≤ 1 }
{
    if change.seq() == 1 { 1 } else { 0 }
}

// How many different actors the changes have: each has one change that is its first.
fn authors(document: &Text) -> usize
    ensures { result ≡ author_count document.now.applied }
{
    let changes = document.changes();
    let mut count = 0usize;
    for change in changes {
        count += first(change);
    }
    count
}

// The lines of the document, its changes, how many actors these have, and how many characters its text.
fn document_lines(alloc: Global, document: &Text, characters: usize) -> Result<String, CommandError>
    ensures ok { IfOk result (λ l. string_bytes l
        ≡ lines_of_document document.now.id document.now.applied characters) }
    ensures err { IsOkUnless result CommandError.OutOfMemory }
{
    let id = id_line(alloc, &document.id())?;
    let changes = document.changes().len();
    let authors = authors(document);
    Ok(format!(in alloc;
        "document {id}changes {changes}\nauthors {authors}\ncharacters {characters}\n"
    )?)
}

// The line of a head.
fn head_line(alloc: Global, head: &Hash) -> Result<String, CommandError>
    ensures ok { IfOk result (λ l. string_bytes l ≡ line_of_head head.now) }
    ensures err { IsOkUnless result CommandError.OutOfMemory }
{
    let line = hash_line(alloc, head)?;
    Ok(format!(in alloc; "head {line}")?)
}

// The lines of how many heads there are, and of each.
fn head_lines(alloc: Global, heads: &[Hash]) -> Result<String, CommandError>
    ensures ok { IfOk result (λ l. string_bytes l ≡ lines_of_heads heads.now) }
    ensures err { IsOkUnless result CommandError.OutOfMemory }
{
    let count = heads.len();
    let mut lines = format!(in alloc; "heads {count}\n")?;
    for head in heads {
        lines.push_str(head_line(alloc, head)?.as_str())?;
    }
    Ok(lines)
}

// The line of how many bytes a recovery keeps, where it cuts off any.
fn kept_line(alloc: Global, keep: u64, size: u64) -> Result<String, AllocError>
    ensures { IfOk result (λ l. string_bytes l ≡ line_of_kept keep size) }
{
    if keep < size {
        format!(in alloc; "kept {keep}\n")
    } else {
        Ok(String::new(alloc))
    }
}

// The line of who has the lock.
fn lock_line(alloc: Global, lock: Lock) -> Result<String, AllocError>
    ensures { IfOk result (λ l. string_bytes l ≡ line_of_lock lock) }
{
    match lock {
        Lock::Unknown => Ok(String::new(alloc)),
        Lock::Free => String::from_str(alloc, "unlocked\n"),
        Lock::HeldBy(process) => format!(in alloc; "locked by {process}\n"),
    }
}

// All lines of a document whose journal has `size` bytes, where `keep` are kept.
fn status(
    alloc: Global,
    document: &Text,
    size: u64,
    keep: u64,
    lock: Lock,
) -> Result<String, CommandError>
    ensures ok { IfOk result (λ l. (characters : ℕ) × HasLength document.now.applied characters
        × (string_bytes l ≡ status_text document.now.id document.now.applied characters size keep lock)) }
    ensures err { IsOkUnless result CommandError.OutOfMemory }
{
    let lines = document_lines(alloc, document, document.len())?;
    let heads = head_lines(alloc, document.heads())?;
    let kept = kept_line(alloc, keep, size)?;
    let lock = lock_line(alloc, lock)?;
    Ok(format!(in alloc; "{lines}{heads}bytes {size}\n{kept}{lock}")?)
}

/// What a journal has, a line each: its document, how many changes it has, how many different actors these have and how many
/// characters the text, how many heads and each of them, how many bytes the journal has, how many of these are kept where a
/// recovery cuts off others, and who has its lock where that is known.
pub fn status_lines(
    alloc: Global,
    journal: Recovering<PeerSequence>,
    lock: Lock,
) -> Result<String, CommandError>
    ensures lines { IfOk result (λ l. IsStatus journal lock (string_bytes l)) }
    ensures err { IfErr result (λ e. RefusesJournal journal e) }
{
    match journal.finish() {
        Ok(recovered) => {
            let size = recovered.keep + recovered.tail.len() as u64;
            let lines = status(alloc, &recovered.document, size, recovered.keep, lock);
            drop(recovered);
            lines
        }
        Err(error) => Err(CommandError::from(error)),
    }
}

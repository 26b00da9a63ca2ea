//! The changes of a document.

ghost use Rattle.std.specs.Prelude.{◌≡◌, ◌≢◌, ◌⊎◌, ◌≤◌, length, IfOk, IfErr};
ghost use Rattle.tp_layout.specs.Spelling.{spelling};
ghost use Rattle.tp_layout.specs.declared.limits.TheConstants.{MAX_OPS};
ghost use Rattle.tp_layout.specs.declared.parts.ChangeParts.{ChangeParts};
ghost use Rattle.tp_c.specs.Changes.{inserted_in, IsApplied, IsFlat, NamesDeps, OfChange};
ghost use Rattle.tp_c.specs.Reading.{OnlyAnswers};

use crate::answering::answer_with;
use crate::handle::Handle;
use crate::hashes::bytes_of;
use crate::status::{NO_CHANGE, OUT_OF_MEMORY};
use std::alloc::{AllocError, Global};
use tp_change::{Change, Record};
use tp_list::char_count;

/// What a change says, as C holds it.
#[repr(C)]
#[derive(Clone, Copy)]
pub struct FlatChange {
    /// Its hash.
    pub hash: [u8; 32],
    /// Who made it.
    pub actor: [u8; 16],
    /// Its number among the actor's changes, from 1.
    pub seq: u64,
    /// When it was made, as whoever made it counts time.
    pub time: u64,
    /// How many changes it depends on.
    pub deps: usize,
    /// How many characters it inserts.
    pub inserted: usize,
    /// How many characters it deletes, each once, also where another change deletes it too.
    pub deleted: usize,
}

/// How many changes are applied.
#[unsafe(no_mangle)]
pub extern "C" fn tp_change_count(handle: &mut Handle) -> usize
    ensures count { result ≡ length handle.old.editor.peer.applied }
    ensures same { handle.new.editor ≡ handle.old.editor }
{
    handle.editor_mut().document().changes().len()
}

// The change with the number, or the status where there is none.
fn nth_change(changes: &[Change], number: usize) -> Result<&Change, u32>
    ensures ok { IfOk result (λ c. IsApplied changes.now number c.now) }
    ensures err { IfErr result (λ status. (status ≡ 3) × (length changes.now ≤ number)) }
{
    if number < changes.len() {
        Ok(&changes[number])
    } else {
        Err(NO_CHANGE)
    }
}

// The bytes of the change with the number, or the status where there are none.
fn nth_bytes(changes: &[Change], number: usize) -> Result<Vec<u8>, u32>
    ensures ok { IfOk result (λ v. (c : ChangeParts) × IsApplied changes.now number c
        × (v.items ≡ spelling c)) }
    ensures err { IfErr result
        (λ status. ((status ≡ 3) × (length changes.now ≤ number)) ⊎ (status ≡ 1)) }
{
    match nth_change(changes, number)?.encode() {
        Ok(bytes) => Ok(bytes),
        Err(_) => Err(OUT_OF_MEMORY),
    }
}

/// The answer is the bytes of the applied change with this number, from 0 in the order in which they entered; its
/// length is written to `len`. Answers 3 where there are fewer, and 1 where a growth was refused; both leave the
/// answer.
#[unsafe(no_mangle)]
pub extern "C" fn tp_change_at(handle: &mut Handle, number: usize, len: &mut usize) -> u32
    ensures bytes { OfChange handle.old.editor.peer.applied number
        (λ c. handle.new.editor.answer ≡ spelling c) result }
    ensures around { OnlyAnswers handle.old.editor result len.new handle.new.editor }
{
    let editor = handle.editor_mut();
    let bytes = nth_bytes(editor.document().changes(), number);
    answer_with(editor, bytes, len)
}

// How many characters the records insert.
fn count_inserted(records: &[Record]) -> usize
    requires { inserted_in records.now ≤ MAX_OPS }
    ensures { result ≡ inserted_in records.now }
{
    let mut total = 0;
    for entry in records {
        if let Record::Insert { text, .. } = entry {
            total += char_count(text.as_str());
        }
    }
    total
}

// The hashes that a change depends on, and its message after them.
fn deps_and_message(alloc: Global, change: &Change) -> Result<Vec<u8>, AllocError>
    ensures { IfOk result (λ v. NamesDeps change.now v.items) }
{
    let mut bytes = bytes_of(alloc, change.deps())?;
    bytes.extend_from_slice(change.message().as_bytes())?;
    Ok(bytes)
}

// What the change says, in numbers.
fn flat_of(change: &Change) -> FlatChange
    ensures { IsFlat change.now result }
{
    let hash = change.hash().0;
    let actor = change.actor().0;
    let inserted = count_inserted(change.records());
    FlatChange {
        hash,
        actor,
        seq: change.seq(),
        time: change.time(),
        deps: change.deps().len(),
        inserted,
        deleted: change.op_count() - inserted,
    }
}

// What the change with the number says, and what is answered with it; or the status where there is nothing.
fn describe(alloc: Global, changes: &[Change], number: usize) -> Result<(FlatChange, Vec<u8>), u32>
    ensures ok { IfOk result (λ said. (c : ChangeParts) × IsApplied changes.now number c
        × IsFlat c said.0 × NamesDeps c said.1.items) }
    ensures err { IfErr result
        (λ status. ((status ≡ 3) × (length changes.now ≤ number)) ⊎ (status ≡ 1)) }
{
    let change = nth_change(changes, number)?;
    match deps_and_message(alloc, change) {
        Ok(bytes) => Ok((flat_of(change), bytes)),
        Err(_) => Err(OUT_OF_MEMORY),
    }
}

/// Writes what the applied change with this number says, from 0 in the order in which they entered, to `change`. The
/// answer is the hashes of the changes that it depends on, 32 bytes each, rising, and after them its message as UTF-8;
/// its length is written to `len`. Answers 3 where there are fewer changes, and 1 where a growth was refused; both leave
/// the answer and `change`.
#[unsafe(no_mangle)]
pub extern "C" fn tp_change_describe(
    alloc: Global,
    handle: &mut Handle,
    number: usize,
    change: &mut FlatChange,
    len: &mut usize,
) -> u32
    ensures says { OfChange handle.old.editor.peer.applied number
        (λ c. IsFlat c change.new × NamesDeps c handle.new.editor.answer) result }
    ensures same { result ≢ 0 → change.new ≡ change.old }
    ensures around { OnlyAnswers handle.old.editor result len.new handle.new.editor }
{
    let editor = handle.editor_mut();
    let bytes = match describe(alloc, editor.document().changes(), number) {
        Ok((flat, bytes)) => {
            *change = flat;
            Ok(bytes)
        }
        Err(status) => Err(status),
    };
    answer_with(editor, bytes, len)
}

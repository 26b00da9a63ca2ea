//! What is read of a document, and of the last answer.

ghost use Rattle.std.specs.Prelude.{◌≡◌, ◌++◌, length, min, take, drop};
ghost use Rattle.tp_document.specs.Common.{chars, IsTextOf};
ghost use Rattle.tp_snapshot.specs.Showing.{HasLength};
ghost use Rattle.tp_history.specs.Heads as head;
ghost use Rattle.tp_c.specs.Heads.{hash_bytes};
ghost use Rattle.tp_c.specs.Reading.{OnlyAnswers};
ghost use Rattle.tp_c.specs.Status.{IsDoneUnless};

use crate::answering::answer_with;
use crate::handle::Handle;
use crate::hashes::bytes_of;
use crate::status::{DOC_OUT_OF_MEMORY, number_of_doc};
use std::alloc::Global;

/// Writes the identifier of the document to `id`.
#[unsafe(no_mangle)]
pub extern "C" fn tp_id(handle: &mut Handle, id: &mut [u8; 16])
    ensures id { id.new ≡ handle.old.editor.peer.id.0 }
    ensures same { handle.new.editor ≡ handle.old.editor }
{
    let bytes = handle.editor_mut().document().id().0;
    *id = bytes;
}

/// How many characters (Unicode scalar values) the text has.
#[unsafe(no_mangle)]
pub extern "C" fn tp_len(handle: &mut Handle) -> usize
    ensures len { HasLength handle.old.editor.peer.applied result }
    ensures same { handle.new.editor ≡ handle.old.editor }
{
    handle.editor_mut().document().len()
}

/// The answer is the text as UTF-8; its length is written to `len`. Answers 109 where a growth was refused, which
/// leaves the answer.
#[unsafe(no_mangle)]
pub extern "C" fn tp_text(handle: &mut Handle, len: &mut usize) -> u32
    ensures text { result ≡ 0
        → IsTextOf handle.old.editor.peer.applied (chars handle.new.editor.answer) }
    ensures err { IsDoneUnless 109 result }
    ensures around { OnlyAnswers handle.old.editor result len.new handle.new.editor }
{
    let editor = handle.editor_mut();
    let bytes = match editor.document().text() {
        Ok(text) => Ok(text.into_bytes()),
        Err(error) => Err(number_of_doc(&error)),
    };
    answer_with(editor, bytes, len)
}

/// The answer is the hashes of the heads, 32 bytes each, rising; its length is written to `len`. Answers 109 where a
/// growth was refused, which leaves the answer.
#[unsafe(no_mangle)]
pub extern "C" fn tp_heads(alloc: Global, handle: &mut Handle, len: &mut usize) -> u32
    ensures heads { result ≡ 0 → handle.new.editor.answer
        ≡ hash_bytes (head.heads handle.old.editor.peer.applied) }
    ensures err { IsDoneUnless 109 result }
    ensures around { OnlyAnswers handle.old.editor result len.new handle.new.editor }
{
    let editor = handle.editor_mut();
    let bytes = match bytes_of(alloc, editor.document().heads()) {
        Ok(bytes) => Ok(bytes),
        Err(_) => Err(DOC_OUT_OF_MEMORY),
    };
    answer_with(editor, bytes, len)
}

// Copies as many bytes as there are in both to the beginning of `out`.
fn copy_to(out: &mut [u8], bytes: &[u8]) -> usize
    ensures count { result ≡ min (length out.old) (length bytes.now) }
    ensures bytes { out.new ≡ take result bytes.now ++ drop result out.old }
{
    let count = out.len().min(bytes.len());
    out[..count].copy_from_slice(&bytes[..count]);
    count
}

/// Copies the last answer to `out`, as much of it as `out` has room for, and tells how many bytes these are. The answer
/// stays.
#[unsafe(no_mangle)]
pub extern "C" fn tp_answer(handle: &mut Handle, out: &mut [u8]) -> usize
    ensures count { result ≡ min (length out.old) (length handle.old.editor.answer) }
    ensures bytes { out.new ≡ take result handle.old.editor.answer ++ drop result out.old }
    ensures same { handle.new.editor ≡ handle.old.editor }
{
    copy_to(out, handle.editor_mut().answer())
}

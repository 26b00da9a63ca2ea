//! Documents that are saved, and that take the place of a handle's.

ghost use Rattle.std.specs.Prelude.{◌≡◌};
ghost use Rattle.tp_store.specs.Saved.{IsSaved};
ghost use Rattle.tp_c.specs.Reading.{OnlyAnswers};
ghost use Rattle.tp_c.specs.Status.{IsDoneUnless};
ghost use Rattle.tp_c.specs.Storing.{empty_editor, Loads};

use crate::answering::answer_with;
use crate::handle::Handle;
use crate::opening::NO_ID;
use crate::status::number_of_store;
use std::alloc::Global;
use tp_editor::Editor;
use tp_opid::{Actor, DocId};
use tp_store::save;

/// Puts a document with this identifier and no changes, in memory alone, in the place of the handle's. Its links, its
/// session and its answer are gone then, and a journal in a file is closed. The actor is one of zeros.
#[unsafe(no_mangle)]
pub extern "C" fn tp_new(alloc: Global, handle: &mut Handle, id: &[u8; 16])
    ensures { handle.new.editor ≡ empty_editor id.now }
{
    *handle.editor_mut() = Editor::new(alloc, DocId(*id), Actor(NO_ID));
}

/// The answer is the saved file of the document; its length is written to `len`. Changes that wait aren't saved.
/// Answers 307 where a growth was refused, which leaves the answer.
#[unsafe(no_mangle)]
pub extern "C" fn tp_save(alloc: Global, handle: &mut Handle, len: &mut usize) -> u32
    ensures bytes { result ≡ 0 → IsSaved handle.new.editor.answer
        handle.old.editor.peer.id handle.old.editor.peer.applied }
    ensures err { IsDoneUnless 307 result }
    ensures around { OnlyAnswers handle.old.editor result len.new handle.new.editor }
{
    let editor = handle.editor_mut();
    let bytes = match save(alloc, editor.document()) {
        Ok(bytes) => Ok(bytes),
        Err(error) => Err(number_of_store(&error)),
    };
    answer_with(editor, bytes, len)
}

/// Puts the document whose saved file the bytes are, in memory alone, in the place of the handle's; the links and the
/// session are gone then, and a journal in a file is closed. Answers 300 and the number of the refusal where they are
/// none, and then all is as it was.
#[unsafe(no_mangle)]
pub extern "C" fn tp_load(handle: &mut Handle, bytes: &[u8]) -> u32
    ensures { Loads handle.old.editor bytes.now result handle.new.editor }
{
    match handle.editor_mut().load(bytes) {
        Ok(()) => 0,
        Err(error) => number_of_store(&error),
    }
}

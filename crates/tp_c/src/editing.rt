//! Edits.

ghost use Rattle.std.specs.Prelude.{◌≡◌, ◌≢◌, [], ◌∷◌, length, Some, None, MatchResult};
ghost use Rattle.std.specs.Str.{IsUtf8};
ghost use Rattle.tp_c.specs.Editing.{EditsFlatSplices, EditsSplices, AsksNoEdit, splice_of};
ghost use Rattle.tp_c.specs.Flat.{AreSplices};
ghost use Rattle.tp_c.specs.declared.status.TheConstants.{DOC_OUT_OF_MEMORY as DOCUMENT, PEER_OUT_OF_MEMORY as PEER};

use crate::handle::Handle;
use crate::splices::{FlatSplice, splices_of};
use crate::status::{BAD_TEXT, DOC_OUT_OF_MEMORY, PEER_OUT_OF_MEMORY, peer_status};
use std::alloc::Global;
use std::str::from_utf8;
use tp_edit::Splice;
use tp_editor::Editor;
use tp_journal::OptionalJournal;
use tp_opid::Actor;

// Asks the editor for an edit, and gives the status: `memory` where that is short.
fn edit_splices(
    editor: &mut Editor<OptionalJournal>,
    actor: Option<Actor>,
    splices: &[Splice],
    time: u64,
    message: &str,
    memory: u32,
) -> u32
    requires { memory ≢ 0 }
    ensures { EditsSplices memory editor.old actor splices.now time message.now result editor.new }
{
    let answered = editor.edit(actor, splices, time, message);
    peer_status(&answered, memory)
}

// The splices and the message that numbers and bytes are, or the status where they are none.
fn read_edit<'a>(
    alloc: Global,
    flat: &[FlatSplice],
    texts: &'a [u8],
    message: &'a [u8],
    memory: u32,
) -> Result<(Vec<Splice<'a>>, &'a str), u32>
    ensures { MatchResult result (λ read. (read.1.now ≡ message.now) × IsUtf8 message.now
        × AreSplices flat.now texts.now read.0.items)
        (AsksNoEdit memory flat.now texts.now message.now) }
{
    match from_utf8(message) {
        Ok(message) => Ok((splices_of(alloc, flat, texts, memory)?, message)),
        Err(_) => Err(BAD_TEXT),
    }
}

// Asks the editor for an edit of numbers and bytes, or says by the status why there is none.
fn edit_flat(
    alloc: Global,
    editor: &mut Editor<OptionalJournal>,
    actor: Option<Actor>,
    flat: &[FlatSplice],
    texts: &[u8],
    time: u64,
    message: &[u8],
    memory: u32,
) -> u32
    requires { memory ≢ 0 }
    ensures { EditsFlatSplices memory editor.old actor flat.now texts.now time message.now result editor.new }
{
    match read_edit(alloc, flat, texts, message, memory) {
        Ok((splices, message)) => edit_splices(editor, actor, &splices, time, message, memory),
        Err(status) => {
            editor.clear_answer();
            status
        }
    }
}

/// Deletes `del` characters from `at` on, and inserts a text there, as one change by the actor, which is the editor's
/// from then on. In a file it is on the disk when it is done. The answer is the hash of the change, or empty where
/// nothing was asked; its length is written to `len`.
///
/// Answers 4 where the text or the message isn't UTF-8, 109 where memory was refused, else the number of the peer's
/// refusal: 100 and that of a document, 502 where the journal's device failed and 503 where it had. The text is then as
/// it was, and the answer empty.
#[unsafe(no_mangle)]
pub extern "C" fn tp_edit(
    alloc: Global,
    handle: &mut Handle,
    actor: &[u8; 16],
    at: usize,
    del: usize,
    text: &[u8],
    time: u64,
    message: &[u8],
    len: &mut usize,
) -> u32
    ensures done { EditsFlatSplices DOCUMENT handle.old.editor (Some (record { 0 = actor.now }))
        (splice_of at del text.now ∷ []) text.now time message.now result handle.new.editor }
    ensures len { len.new ≡ length handle.new.editor.answer }
{
    let one = [FlatSplice {
        at,
        del,
        len: text.len(),
    }];
    tp_edit_many(alloc, handle, actor, &one, text, time, message, len)
}

/// Does each splice in turn, on the text that the ones before it leave, as one change by the actor, and is else as
/// [`tp_edit`]. Their texts are the bytes of `texts`, one after another.
///
/// Answers 4 where the message isn't UTF-8; else 5 where the splices' texts have more or fewer bytes together than
/// `texts`; else 4 where one of the texts isn't UTF-8; else as `tp_edit`: 103 where the splices delete and insert more
/// than 65,536 characters together. The text is then as it was, and the answer empty.
#[unsafe(no_mangle)]
pub extern "C" fn tp_edit_many(
    alloc: Global,
    handle: &mut Handle,
    actor: &[u8; 16],
    splices: &[FlatSplice],
    texts: &[u8],
    time: u64,
    message: &[u8],
    len: &mut usize,
) -> u32
    ensures done { EditsFlatSplices DOCUMENT handle.old.editor (Some (record { 0 = actor.now }))
        splices.now texts.now time message.now result handle.new.editor }
    ensures len { len.new ≡ length handle.new.editor.answer }
{
    let editor = handle.editor_mut();
    let actor = Some(Actor(*actor));
    let memory = DOC_OUT_OF_MEMORY;
    let status = edit_flat(alloc, editor, actor, splices, texts, time, message, memory);
    *len = editor.answer().len();
    status
}

/// Edits as [`tp_edit`], under the editor's actor. Answers 509 where memory was refused.
#[unsafe(no_mangle)]
pub extern "C" fn tp_shared_edit(
    alloc: Global,
    handle: &mut Handle,
    at: usize,
    del: usize,
    text: &[u8],
    time: u64,
    message: &[u8],
    len: &mut usize,
) -> u32
    ensures done { EditsFlatSplices PEER handle.old.editor None (splice_of at del text.now ∷ []) text.now time
        message.now result handle.new.editor }
    ensures len { len.new ≡ length handle.new.editor.answer }
{
    let one = [FlatSplice {
        at,
        del,
        len: text.len(),
    }];
    tp_shared_edit_many(alloc, handle, &one, text, time, message, len)
}

/// Edits as [`tp_edit_many`], under the editor's actor. Answers 509 where memory was refused.
#[unsafe(no_mangle)]
pub extern "C" fn tp_shared_edit_many(
    alloc: Global,
    handle: &mut Handle,
    splices: &[FlatSplice],
    texts: &[u8],
    time: u64,
    message: &[u8],
    len: &mut usize,
) -> u32
    ensures done { EditsFlatSplices PEER handle.old.editor None splices.now texts.now time message.now result
        handle.new.editor }
    ensures len { len.new ≡ length handle.new.editor.answer }
{
    let editor = handle.editor_mut();
    let memory = PEER_OUT_OF_MEMORY;
    let status = edit_flat(alloc, editor, None, splices, texts, time, message, memory);
    *len = editor.answer().len();
    status
}

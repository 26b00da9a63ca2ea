//! Handles come and go.

ghost use Rattle.std.specs.Prelude.{◌≡◌, ◌⊎◌};
ghost use Rattle.tp_editor.specs.Opening as editor;
ghost use Rattle.tp_c.specs.Opening.{PutsEditor, PutsBy, PutsFork, PutsOpened, RefusesPath};
ghost use Rattle.tp_c.specs.Storing.{empty_editor};

use crate::handle::Handle;
use crate::loose::Loose;
use crate::slot::{Slot, slot_of};
use crate::status::{BAD_TEXT, OUT_OF_MEMORY, number_of_doc, number_of_opening};
use std::alloc::Global;
use std::str::from_utf8;
use tp_editor::{Editor, EditorOpenError};
use tp_journal::OptionalJournal;
use tp_opid::{Actor, DocId};

/// The identifier of a document, and the actor of its edits, where none was given.
pub(crate) const NO_ID: [u8; 16] = [0; 16];

// Puts the editor into the slot.
fn put_editor(alloc: Global, editor: Editor<OptionalJournal>, slot: &mut Slot) -> u32
    ensures { PutsEditor editor result slot.old slot.new }
{
    match Box::new(alloc, editor) {
        Ok(editor) => {
            *slot = slot_of(Loose::of(editor));
            0
        }
        Err(_) => OUT_OF_MEMORY,
    }
}

// Puts the editor that was opened into the slot, or answers why there is none.
fn put_opened(
    alloc: Global,
    opened: Result<Editor<OptionalJournal>, EditorOpenError>,
    slot: &mut Slot,
) -> u32
    ensures { PutsOpened opened result slot.old slot.new }
{
    match opened {
        Ok(editor) => put_editor(alloc, editor, slot),
        Err(error) => number_of_opening(&error),
    }
}

/// Makes an editor and puts it into `slot`, which becomes a handle. Its document has no changes, and an
/// identifier of zeros, until `tp_new` or `tp_load` puts another one in its place.
///
/// Answers 1 where a growth was refused: nothing is written then.
#[unsafe(no_mangle)]
pub extern "C" fn tp_open(alloc: Global, slot: &mut Slot) -> u32
    ensures { PutsEditor (empty_editor NO_ID) result slot.old slot.new }
{
    put_editor(alloc, Editor::new(alloc, DocId(NO_ID), Actor(NO_ID)), slot)
}

/// Opens the journal in the file at the path, to be edited under the actor, and puts the editor into `slot`, which
/// becomes a handle.
///
/// Answers 4 where the path isn't UTF-8, and 1 where a growth was refused; else as the refusal of
/// [`Editor::open`]. Nothing is written then.
#[unsafe(no_mangle)]
pub extern "C" fn tp_shared_open(
    alloc: Global,
    path: &[u8],
    actor: &[u8; 16],
    slot: &mut Slot,
) -> u32
    ensures { RefusesPath path.now result slot.old slot.new
        ⊎ PutsBy (editor.Opens (record { 0 = actor.now })) (editor.RefusesOpening (record { 0 = actor.now }))
        result slot.old slot.new }
{
    match from_utf8(path) {
        Ok(path) => put_opened(alloc, Editor::open(alloc, path, Actor(*actor)), slot),
        Err(_) => BAD_TEXT,
    }
}

/// Begins the journal of a new document with the identifier in the file at the path, and is else as [`tp_shared_open`],
/// with the refusals of [`Editor::create`].
#[unsafe(no_mangle)]
pub extern "C" fn tp_shared_create(
    alloc: Global,
    path: &[u8],
    id: &[u8; 16],
    actor: &[u8; 16],
    slot: &mut Slot,
) -> u32
    ensures { RefusesPath path.now result slot.old slot.new
        ⊎ PutsBy (editor.BeginsDocument (record { 0 = id.now }) (record { 0 = actor.now }))
        (editor.RefusesNewDocument (record { 0 = id.now })) result slot.old slot.new }
{
    match from_utf8(path) {
        Ok(path) => put_opened(
            alloc,
            Editor::create(alloc, path, DocId(*id), Actor(*actor)),
            slot,
        ),
        Err(_) => BAD_TEXT,
    }
}

/// Makes an editor of a copy of the document with the changes that entered, in memory alone, edited under the actor, and
/// puts it into `slot`, which becomes a handle. No two editors may edit under one actor at a time.
///
/// Answers 109 or 1 where a growth was refused: nothing is written then.
#[unsafe(no_mangle)]
pub extern "C" fn tp_fork(
    alloc: Global,
    handle: &mut Handle,
    actor: &[u8; 16],
    slot: &mut Slot,
) -> u32
    ensures forked { PutsFork handle.old.editor.peer (record { 0 = actor.now }) result slot.old
        slot.new }
    ensures same { handle.new.editor ≡ handle.old.editor }
{
    match handle.editor_mut().fork(Actor(*actor)) {
        Ok(editor) => put_editor(alloc, editor, slot),
        Err(error) => number_of_doc(&error),
    }
}

/// Ends the editor and its session, frees its file's lock, and gives back all its memory. The handle must not be used
/// again.
#[unsafe(no_mangle)]
pub extern "C" fn tp_free(alloc: Global, handle: Handle) {
    drop(handle.into_loose(alloc).into_box());
}

//! Changes of others.

ghost use Rattle.std.specs.Prelude.{◌≡◌};
ghost use Rattle.tp_c.specs.Receiving.{Applies, AppliesChange, MergesEditor};

use crate::handle::Handle;
use crate::status::{DOC_OUT_OF_MEMORY, peer_status};
use std::alloc::Global;
use tp_change::Change;
use tp_editor::Editor;
use tp_journal::OptionalJournal;

// Applies one change, and gives the status.
fn apply_change(editor: &mut Editor<OptionalJournal>, change: Change) -> u32
    ensures { AppliesChange editor.old change result editor.new }
{
    let answered = editor.apply(change);
    peer_status(&answered, DOC_OUT_OF_MEMORY)
}

// Applies the change that the bytes are.
fn apply_bytes(alloc: Global, editor: &mut Editor<OptionalJournal>, bytes: &[u8]) -> u32
    ensures { Applies editor.old bytes.now result editor.new }
{
    match Change::decode(alloc, bytes) {
        Ok(change) => apply_change(editor, change),
        Err(error) => 400 + error.code() as u32,
    }
}

/// Receives the change that the bytes are: it enters, with those that waited for it; or it waits for what it depends
/// on; or it is refused for good, as one that is there already. Each of these is done, and `tp_change_count` tells how
/// many entered. In a file it is on the disk with the next edit or message.
///
/// Answers 400 and the number of the refusal where the bytes are no change, 107 where more than 1,024 changes would
/// wait, 109 or 411 where a growth was refused, 502 where the journal's device failed and 503 where it had.
#[unsafe(no_mangle)]
pub extern "C" fn tp_apply(alloc: Global, handle: &mut Handle, bytes: &[u8]) -> u32
    ensures { Applies handle.old.editor bytes.now result handle.new.editor }
{
    apply_bytes(alloc, handle.editor_mut(), bytes)
}

// Merges, and gives the status.
fn merge_from(editor: &mut Editor<OptionalJournal>, other: &Editor<OptionalJournal>) -> u32
    ensures { MergesEditor editor.old other.now result editor.new }
{
    let answered = editor.merge(other);
    peer_status(&answered, DOC_OUT_OF_MEMORY)
}

/// Receives the changes of the other handle's document that are absent here. The other one stays as it is, and is of
/// another handle. In a file they are on the disk with the next edit or message.
///
/// Answers 110 where the documents have different identifiers, 109 where a growth was refused, 502 where the journal's
/// device failed and 503 where that of either had.
#[unsafe(no_mangle)]
pub extern "C" fn tp_merge(handle: &mut Handle, other: &mut Handle) -> u32
    ensures merges { MergesEditor handle.old.editor other.old.editor result handle.new.editor }
    ensures other { other.new.editor ≡ other.old.editor }
{
    merge_from(handle.editor_mut(), other.editor_mut())
}

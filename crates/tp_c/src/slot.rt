//! The place of a handle that is to come.

ghost use Rattle.std.specs.Prelude.{◌≡◌, Some, Option as Maybe};
ghost use Rattle.std.specs.declared.alloc.Global.{Global as Heap};
ghost use Rattle.tp_editor.specs.EditorState.{EditorState};

use crate::loose::Loose;
use std::alloc::Global;
use std::marker::Model;
use tp_editor::Editor;
use tp_journal::OptionalJournal;

/// Where C is to have a handle: an address, whatever it is before.
///
/// Contracts see the editor that was put there, if one was: then it is a [`Handle`](crate::Handle).
#[repr(C)]
#[derive(Drop)]
pub struct Slot {
    at: *mut u8,
    pub ghost editor: { Maybe EditorState },
    pub ghost alloc: { Heap },
}

impl Model for Slot {
    ghost use Rattle.tp_c.specs.Owned.{slot_owned};

    ghost also_owns = { λ s. slot_owned s.alloc s.at s.editor };
}

/// A slot with the editor, whose box is the caller's from now on.
pub(crate) fn slot_of(loose: Loose<Editor<OptionalJournal>, Global>) -> Slot
    ensures { result.editor ≡ Some loose.value }
{
    let Loose { at, alloc: _ } = loose;
    Slot { at: at as *mut u8 }
}

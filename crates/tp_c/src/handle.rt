//! The handle: how C holds an editor.

ghost use Rattle.std.specs.Prelude.{◌≡◌};
ghost use Rattle.std.specs.declared.alloc.Global.{Global as Heap};
ghost use Rattle.tp_editor.specs.EditorState.{EditorState};

use crate::loose::Loose;
use std::alloc::Global;
use std::marker::Model;
use tp_editor::Editor;
use tp_journal::OptionalJournal;

/// An editor as C holds it: its address, which C neither reads nor changes.
///
/// Contracts see the editor at the address. It lies in a block of the C library's heap, which
/// [`tp_free`](crate::tp_free) gives back.
#[repr(C)]
pub struct Handle {
    pub(crate) at: *mut u8,
    pub ghost editor: { EditorState },
    pub ghost alloc: { Heap },
}

impl Model for Handle {
    ghost use Rattle.tp_c.specs.Owned.{editor_owned};

    ghost also_owns = { λ h. editor_owned h.alloc h.at h.editor };
}

impl Handle {
    // The editor's box as its pointer.
    pub(crate) fn into_loose(self, alloc: Global) -> Loose<Editor<OptionalJournal>, Global>
        ensures { result.value ≡ self.editor }
    {
        let Handle { at } = self;
        Loose {
            at: at as *mut Editor<OptionalJournal>,
            alloc,
        }
    }
}

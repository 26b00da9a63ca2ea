//! The editor behind a handle.

ghost use Rattle.std.specs.Prelude.{◌≡◌};
ghost use types.Logic.{sem};
ghost use Rattle.tp_c.specs.Lends.{lends};

use crate::handle::Handle;
use tp_editor::Editor;
use tp_journal::OptionalJournal;

impl Handle {
    /// The editor. Once the borrow ends, the handle is of what it was left at.
    pub(crate) fn editor_mut(&mut self) -> &mut Editor<OptionalJournal>
        ensures* writes_back { sem 𝓛 (lends self.entry result) }
        ensures value { result.now ≡ self.old.editor }
    {
        unsafe { &mut *(self.at as *mut Editor<OptionalJournal>) }
    }
}

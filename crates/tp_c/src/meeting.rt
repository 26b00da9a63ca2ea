//! Sessions, by bytes.

ghost use Rattle.std.specs.Prelude.{◌≡◌, length, None};
ghost use Rattle.tp_c.specs.Meeting as meeting;
ghost use Rattle.tp_c.specs.Meeting.{Began, IsFed};

use crate::handle::Handle;
use crate::status::number_of_session;
use tp_editor::Editor;
use tp_journal::OptionalJournal;
use tp_session::Role;

// Which side a number names.
fn role_of(number: u32) -> Role
    ensures { result ≡ meeting.role_of number }
{
    if number == 0 {
        Role::Client
    } else {
        Role::Server
    }
}

// Begins a session, and gives the status.
fn begin(editor: &mut Editor<OptionalJournal>, role: Role) -> u32
    ensures { Began editor.old role result editor.new }
{
    match editor.begin(role) {
        Ok(()) => 0,
        Err(error) => number_of_session(&error),
    }
}

/// Begins a session, as the client where `role` is 0, and else as the server. The answer is what is to be sent at once;
/// its length is written to `len`.
///
/// Answers 503 where the editor has stopped, and 608 where a growth was refused. No session goes on then, and the
/// answer is empty.
#[unsafe(no_mangle)]
pub extern "C" fn tp_shared_begin(handle: &mut Handle, role: u32, len: &mut usize) -> u32
    ensures begun { Began handle.old.editor (meeting.role_of role) result handle.new.editor }
    ensures len { len.new ≡ length handle.new.editor.answer }
{
    let editor = handle.editor_mut();
    let status = begin(editor, role_of(role));
    *len = editor.answer().len();
    status
}

// Feeds the editor bytes, writes 1 to `going` where the session goes on and else 0, and gives the status.
fn feed(editor: &mut Editor<OptionalJournal>, bytes: &[u8], going: &mut u32) -> u32
    ensures { IsFed editor.old bytes.now result going.new editor.new }
{
    match editor.feed(bytes) {
        Ok(false) => {
            *going = 1;
            0
        }
        Ok(true) => {
            *going = 0;
            0
        }
        Err(error) => {
            *going = 0;
            number_of_session(&error)
        }
    }
}

/// Takes the next bytes of the other side. The answer is what is to be sent; its length is written to `len`. Writes 1
/// to `going` where the session goes on and else 0, and to `entered` how many changes entered in it.
///
/// Answers 0 where it goes on or has ended well, and else the number of the error for which it broke off; 605 where no
/// session goes on.
#[unsafe(no_mangle)]
pub extern "C" fn tp_shared_feed(
    handle: &mut Handle,
    bytes: &[u8],
    len: &mut usize,
    going: &mut u32,
    entered: &mut u64,
) -> u32
    ensures fed { IsFed handle.old.editor bytes.now result going.new handle.new.editor }
    ensures len { len.new ≡ length handle.new.editor.answer }
    ensures entered { entered.new ≡ handle.new.editor.entered }
{
    let editor = handle.editor_mut();
    let status = feed(editor, bytes, going);
    *len = editor.answer().len();
    *entered = editor.entered_count();
    status
}

/// Ends the session that goes on, if one does. Nothing is to be sent for it.
#[unsafe(no_mangle)]
pub extern "C" fn tp_shared_end(handle: &mut Handle)
    ensures { handle.new.editor ≡ record handle.old.editor { held = None } }
{
    handle.editor_mut().end();
}

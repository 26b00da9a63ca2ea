//! Links to other peers, and messages on them.

ghost use Rattle.tp_c.specs.Linking.{GeneratesOnLink, OpensLink, ReceivesBytes};

use crate::handle::Handle;
use crate::status::{
    OUT_OF_MEMORY, PEER_OUT_OF_MEMORY, SYNC_OUT_OF_MEMORY, editor_status, number_of_peer,
};
use tp_editor::Editor;
use tp_journal::OptionalJournal;

/// Opens a link to another peer, of which nothing is known yet, and writes its number to `link`: from 0 in the order in
/// which links are opened. Answers 504 where 1,022 are: nothing is written then.
#[unsafe(no_mangle)]
pub extern "C" fn tp_link(handle: &mut Handle, link: &mut usize) -> u32
    ensures { OpensLink handle.old.editor result link.old link.new handle.new.editor }
{
    match handle.editor_mut().open_link() {
        Ok(number) => {
            *link = number;
            0
        }
        Err(error) => number_of_peer(&error, PEER_OUT_OF_MEMORY),
    }
}

// Makes the next message on the link, and tells how long it is.
fn generate_on(editor: &mut Editor<OptionalJournal>, link: usize, len: &mut usize) -> u32
    ensures { GeneratesOnLink editor.old link result len.new editor.new }
{
    let answered = editor.generate(link);
    *len = match &answered {
        Ok(true) => editor.answer().len(),
        _ => 0,
    };
    editor_status(&answered, OUT_OF_MEMORY)
}

/// The answer is the next message to the other of the link; its length is written to `len`. It is 0 where nothing is to
/// be said, and where the call is refused: the answer stays then.
///
/// Answers 2 where there is no such link, 203 past 65,535 heads, 1 where a growth was refused, 502 where the journal's
/// device failed and 503 where it had.
#[unsafe(no_mangle)]
pub extern "C" fn tp_generate(handle: &mut Handle, link: usize, len: &mut usize) -> u32
    ensures { GeneratesOnLink handle.old.editor link result len.new handle.new.editor }
{
    generate_on(handle.editor_mut(), link, len)
}

// Receives the bytes on the link, and gives the status.
fn receive_on(editor: &mut Editor<OptionalJournal>, link: usize, bytes: &[u8]) -> u32
    ensures { ReceivesBytes editor.old link bytes.now result editor.new }
{
    let answered = editor.receive(link, bytes);
    editor_status(&answered, SYNC_OUT_OF_MEMORY)
}

/// Receives the message that the bytes are from the other of the link. In a file its changes are on the disk with the
/// next edit or message.
///
/// Answers 2 where there is no such link, 503 where the journal's device had failed, 201 or 202 where the bytes are no
/// message, 204 where more than 1,024 changes would wait, 205 where a growth was refused, and 502 where the device failed.
#[unsafe(no_mangle)]
pub extern "C" fn tp_receive(handle: &mut Handle, link: usize, bytes: &[u8]) -> u32
    ensures { ReceivesBytes handle.old.editor link bytes.now result handle.new.editor }
{
    receive_on(handle.editor_mut(), link, bytes)
}

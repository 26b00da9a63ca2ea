//! Positions that stay where they are in a text that changes.

ghost use Rattle.std.specs.Prelude.{◌≡◌};
ghost use Rattle.tp_c.specs.Reading.{FindsElement, FindsParts, Locates, LocatesParts};

use crate::handle::Handle;
use crate::status::number_of_doc;
use tp_document::Cursor;
use tp_opid::{Actor, OpId};

/// An element of the text as C holds it: what a cursor marks.
#[repr(C)]
#[derive(Clone, Copy)]
pub struct Element {
    /// From 1 to 2^48 - 1.
    pub counter: u64,
    /// Who inserted it.
    pub actor: [u8; 16],
}

/// Writes the visible element at a position of the text, from 0, to `element`. Answers 101 where the text ends before
/// it: nothing is written then.
#[unsafe(no_mangle)]
pub extern "C" fn tp_cursor(handle: &mut Handle, at: usize, element: &mut Element) -> u32
    ensures found { FindsElement handle.old.editor.peer.applied at result element.old element.new }
    ensures same { handle.new.editor ≡ handle.old.editor }
{
    match handle.editor_mut().document().cursor(at) {
        Ok(cursor) => {
            let actor = cursor.element.actor.0;
            *element = Element {
                counter: cursor.element.counter,
                actor,
            };
            0
        }
        Err(error) => number_of_doc(&error),
    }
}

/// Writes how many visible characters are before the element, which may have been deleted since, to `at`. Answers 106
/// where the document hasn't the element: nothing is written then.
#[unsafe(no_mangle)]
pub extern "C" fn tp_cursor_position(handle: &mut Handle, element: &Element, at: &mut usize) -> u32
    ensures found { Locates handle.old.editor.peer.applied element.now result at.old at.new }
    ensures same { handle.new.editor ≡ handle.old.editor }
{
    let cursor = Cursor {
        element: OpId {
            counter: element.counter,
            actor: Actor(element.actor),
        },
    };
    match handle.editor_mut().document().cursor_position(&cursor) {
        Ok(position) => {
            *at = position;
            0
        }
        Err(error) => number_of_doc(&error),
    }
}

/// Writes the visible element at a position of the text, from 0, as [`tp_cursor`] does, in parts.
#[unsafe(no_mangle)]
pub extern "C" fn tp_shared_cursor(
    handle: &mut Handle,
    at: usize,
    counter: &mut u64,
    actor: &mut [u8; 16],
) -> u32
    ensures found { FindsParts handle.old.editor.peer.applied at result counter.old actor.old
        counter.new actor.new }
    ensures same { handle.new.editor ≡ handle.old.editor }
{
    let mut element = Element {
        counter: *counter,
        actor: *actor,
    };
    let status = tp_cursor(handle, at, &mut element);
    *counter = element.counter;
    *actor = element.actor;
    status
}

/// Writes how many visible characters are before the element, which is given in parts, as [`tp_cursor_position`]
/// does.
#[unsafe(no_mangle)]
pub extern "C" fn tp_shared_cursor_position(
    handle: &mut Handle,
    counter: u64,
    actor: &[u8; 16],
    position: &mut usize,
) -> u32
    ensures found { LocatesParts handle.old.editor.peer.applied counter actor.now result
        position.old position.new }
    ensures same { handle.new.editor ≡ handle.old.editor }
{
    let element = Element {
        counter,
        actor: *actor,
    };
    tp_cursor_position(handle, &element, position)
}

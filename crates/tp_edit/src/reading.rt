//! The text that a sequence shows.

ghost use Rattle.std.specs.Prelude.{◌≡◌, IfOk, encode_utf8_all};
ghost use Rattle.std.specs.String.{string_bytes};
ghost use Rattle.tp_rga.specs.Shown.{visible_of};
ghost use Rattle.tp_edit.specs.Text.{chars_of};

use std::alloc::{AllocError, Global};
use tp_rga::{Sequence, Walk};

/// The text that a sequence shows, in one pass over its elements.
pub fn text<S: Sequence>(alloc: Global, sequence: &S) -> Result<String, AllocError>
    ensures { IfOk result (λ text. string_bytes text
        ≡ encode_utf8_all (chars_of (visible_of (S.removals sequence.now) (S.placed sequence.now)))) }
{
    let mut text = String::with_capacity(alloc, sequence.len())?;
    let mut walk = Walk::start();
    while let Some(element) = sequence.next_element(&mut walk) {
        if !element.deleted {
            text.push(element.ch)?;
        }
    }
    Ok(text)
}

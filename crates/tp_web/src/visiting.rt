//! A connection from its acceptance until it has asked for something.

ghost use Rattle.std.specs.Prelude.{IfSome};
ghost use Rattle.tp_web.specs.Sites.{IsWantedBy};

use crate::head::{read_head, wanted_by};
use crate::responding::{send_nothing, send_part, send_refusal};
use crate::site::{Site, Wanted};
use std::alloc::Global;
use std::io::{Read, Write};

/// Reads the head of a request and answers it, except for one that is for a window: the bytes that begin with its head.
pub(crate) fn receive<S: Read + Write>(
    alloc: Global,
    site: &Site,
    stream: &mut S,
) -> Option<Vec<u8>>
    ensures { IfSome result (λ bytes. IsWantedBy site.now bytes.items Wanted.Window) }
{
    let request = read_head(alloc, stream)?;
    match wanted_by(site, &request) {
        Wanted::Window => return Some(request),
        Wanted::Part(part) => {
            let _ = send_part(alloc, part, stream);
        }
        Wanted::Nothing => {
            let _ = send_nothing(alloc, stream);
        }
        Wanted::Foreign => {
            let _ = send_refusal(alloc, stream);
        }
    }
    None
}

//! How a session's end is printed.

use crate::reads::text;
use crate::world::RowPeer;
use tp_session::NetError;
use tp_test_runner::{Fault, Shelf, refusal};

// The name of the bytes, `nothing` for none, and where they have no name their digits.
fn put_stream(shelf: &Shelf<Vec<u8>>, out: &mut String, sent: &[u8]) -> Result<(), Fault> {
    if sent.is_empty() {
        return Ok(out.push_str("nothing")?);
    }
    for (name, bytes) in shelf.all() {
        if bytes.as_slice() == sent {
            return Ok(out.push_str(name.as_str())?);
        }
    }
    match hex::encode(shelf.alloc(), sent) {
        Ok(digits) => Ok(out.push_str(digits.as_str())?),
        Err(_) => Err(Fault::Memory),
    }
}

fn put_end(out: &mut String, ended: Result<u64, NetError>) -> Result<(), Fault> {
    match ended {
        Ok(applied) => write!(out, "{applied} applied")?,
        Err(NetError::RefusedByOther { code }) => write!(out, "RefusedByOther:{code}")?,
        Err(error) => {
            let name = refusal(*out.allocator(), error)?;
            out.push_str(name.as_str())?;
        }
    }
    Ok(())
}

/// How a session ended, the peer's text then, and what was sent: `1 applied "qabc" sends NAME`.
pub fn end(
    shelf: &Shelf<Vec<u8>>,
    ended: Result<u64, NetError>,
    peer: &RowPeer,
    sent: &[u8],
) -> Result<String, Fault> {
    let mut out = String::new(shelf.alloc());
    put_end(&mut out, ended)?;
    out.push(' ')?;
    out.push_str(text(shelf.alloc(), peer)?.as_str())?;
    out.push_str(" sends ")?;
    put_stream(shelf, &mut out, sent)?;
    Ok(out)
}

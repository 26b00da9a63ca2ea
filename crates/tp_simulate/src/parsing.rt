//! From a line to what it asks for.

use crate::asked::{Asked, AskedCall};
use crate::words::{actor, bytes, count, number, words_of};
use std::alloc::{AllocError, Global};
use tp_edit::Splice;

/// What a line asks for; `None` where it has another shape than those of docs/FORMATS.md.
pub(crate) fn asked_by<'a>(alloc: Global, line: &'a str) -> Result<Option<Asked<'a>>, AllocError> {
    if line.contains('\r') {
        return Ok(None);
    }
    let words = words_of(alloc, line)?;
    match words.as_slice() {
        ["bytes", to, from, digits] => delivery(alloc, to, from, digits),
        ["crash", peer, actor, kept, call] => crash(alloc, peer, actor, kept, call),
        words => Ok(plain(words)),
    }
}

// What the words of a line ask for that needs no memory.
fn plain<'a>(words: &[&'a str]) -> Option<Asked<'a>> {
    match words {
        ["start", name] => Some(Asked::Start {
            actor: actor(name)?,
        }),
        ["fork", of, name] => Some(Asked::Fork {
            of: count(of)?,
            actor: actor(name)?,
        }),
        ["crash", peer, name] => Some(Asked::Crash {
            peer: count(peer)?,
            actor: actor(name)?,
        }),
        ["fail", peer, kept] => Some(Asked::Fail {
            peer: count(peer)?,
            kept: number(kept)?,
        }),
        ["mark", name, peer] if !name.is_empty() => Some(Asked::Mark {
            name,
            peer: count(peer)?,
        }),
        words => {
            let (peer, call) = call(words)?;
            Some(Asked::Call {
                peer,
                call,
                crash: None,
            })
        }
    }
}

// The peer of a line of a call, and the call.
fn call<'a>(words: &[&'a str]) -> Option<(usize, AskedCall<'a>)> {
    match words {
        ["send", peer, to] => Some((count(peer)?, AskedCall::Send(count(to)?))),
        ["read", peer] => Some((count(peer)?, AskedCall::Read)),
        ["readat", peer, name] => Some((count(peer)?, AskedCall::ReadAt(name))),
        words => appending(words),
    }
}

// The peer and the call of a line, where the call may append to the journal.
fn appending<'a>(words: &[&'a str]) -> Option<(usize, AskedCall<'a>)> {
    match words {
        ["edit", peer, at, del] => Some((count(peer)?, edit(at, del, "")?)),
        ["edit", peer, at, del, text] => Some((count(peer)?, edit(at, del, text)?)),
        ["merge", peer, from] => Some((count(peer)?, AskedCall::Merge(count(from)?))),
        ["deliver", entry, peer] => Some((count(peer)?, AskedCall::Deliver(count(entry)?))),
        _ => None,
    }
}

fn edit<'a>(at: &str, del: &str, text: &'a str) -> Option<AskedCall<'a>> {
    Some(AskedCall::Edit(Splice {
        at: count(at)?,
        del: count(del)?,
        text,
    }))
}

// `bytes TO FROM HEX`.
fn delivery<'a>(
    alloc: Global,
    to: &str,
    from: &str,
    digits: &str,
) -> Result<Option<Asked<'a>>, AllocError> {
    let (Some(peer), Some(from)) = (count(to), count(from)) else {
        return Ok(None);
    };
    match bytes(alloc, digits)? {
        Some(bytes) => Ok(Some(Asked::Call {
            peer,
            call: AskedCall::Bytes(from, bytes),
            crash: None,
        })),
        None => Ok(None),
    }
}

// `crash PEER ACTOR KEPT` and a line of that peer.
fn crash<'a>(
    alloc: Global,
    peer: &str,
    name: &str,
    kept: &str,
    line: &'a str,
) -> Result<Option<Asked<'a>>, AllocError> {
    let words = words_of(alloc, line)?;
    Ok(crash_during(peer, name, kept, words.as_slice()))
}

fn crash_during<'a>(peer: &str, name: &str, kept: &str, words: &[&'a str]) -> Option<Asked<'a>> {
    let peer = count(peer)?;
    let actor = actor(name)?;
    let kept = number(kept)?;
    let (of, call) = appending(words)?;
    if of != peer {
        return None;
    }
    Some(Asked::Call {
        peer,
        call,
        crash: Some((kept, actor)),
    })
}

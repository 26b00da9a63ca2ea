//! Calls on the numbers and names of errors.

use std::alloc::Global;
use tp_document::DocError;
use tp_peer::PeerError;
use tp_session::NetError;
use tp_store::StoreError;
use tp_sync::SyncError;
use tp_test_runner::{Fault, Words, put_error};

fn of_peers(out: &mut String) -> Result<(), Fault> {
    for error in [
        PeerError::ActorInUse,
        PeerError::JournalFailed,
        PeerError::Stopped,
        PeerError::TooManyLinks,
        PeerError::JournalNotEmpty,
        PeerError::Doc(DocError::OutOfRange),
        PeerError::Sync(SyncError::BadMessage),
        PeerError::Store(StoreError::BadMagic),
        PeerError::OutOfMemory,
    ] {
        put_error(out, error.code(), error)?;
    }
    Ok(())
}

fn of_sessions(out: &mut String) -> Result<(), Fault> {
    for error in [
        NetError::Io,
        NetError::Frame,
        NetError::OtherDocument,
        NetError::Version,
        NetError::Unexpected,
        NetError::RefusedByOther { code: 4 },
        NetError::Peer(PeerError::Stopped),
        NetError::OutOfMemory,
    ] {
        put_error(out, error.code(), error)?;
    }
    Ok(())
}

/// `errors WHAT`: the numbers and names of what may be refused, or end a session.
pub fn call(alloc: Global, words: &mut Words) -> Result<String, Fault> {
    let mut out = String::new(alloc);
    match words.next()? {
        "peer" => of_peers(&mut out)?,
        "session" => of_sessions(&mut out)?,
        _ => return Err(Fault::Row("no such errors")),
    }
    Ok(out)
}

//! The call `edit`.

use crate::world::{RowPeer, World};
use std::alloc::Global;
use tp_opid::Hash;
use tp_peer::PeerError;
use tp_test_runner::{Fault, Request, Words, lend_splices, name_last, refusal, request_of};

fn edit_asked(
    alloc: Global,
    peer: &mut RowPeer,
    asked: &Request,
) -> Result<Result<Option<Hash>, PeerError>, Fault> {
    let splices = lend_splices(alloc, &asked.splices)?;
    Ok(peer.edit(&splices, asked.time, asked.message.as_str()))
}

/// `edit PEER [as=NAME] ..`: `ok` where a change was entered, `nothing` where none was asked for.
pub fn call(world: &mut World, words: &mut Words) -> Result<String, Fault> {
    let peer = world.peers.get_mut(words.next()?)?;
    let asked = request_of(world.alloc, words)?;
    match edit_asked(world.alloc, peer, &asked)? {
        Ok(Some(_)) => name_last(&mut world.changes, peer.document().changes(), asked.name),
        Ok(None) => Ok(String::from_str(world.alloc, "nothing")?),
        Err(error) => refusal(world.alloc, error),
    }
}

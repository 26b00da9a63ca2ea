//! Lists of hashes in brackets, those of documents among them.

use crate::world::World;
use tp_document::Document;
use tp_opid::Hash;
use tp_rga::Sequence;
use tp_test_runner::{Fault, inside, push_hashes};

// Adds the heads of a document.
fn push_heads<S: Sequence>(hashes: &mut Vec<Hash>, document: &Document<S>) -> Result<(), Fault> {
    for hash in document.heads() {
        hashes.push(*hash)?;
    }
    Ok(())
}

// Adds the hashes that an item stands for.
fn push_item<S: Sequence>(
    world: &World<S>,
    hashes: &mut Vec<Hash>,
    item: &str,
) -> Result<(), Fault> {
    match item.strip_prefix("heads:") {
        Some(name) => push_heads(hashes, world.documents.get(name)?),
        None => push_hashes(&world.changes, hashes, item),
    }
}

/// Hashes: `[]`, or items in brackets, parted by commas. An item is the name of a change, `unknown`, `rising:N` for N
/// hashes of no change, or `heads:NAME` for those of a document.
pub fn hashes<S: Sequence>(world: &World<S>, word: &str) -> Result<Vec<Hash>, Fault> {
    let mut hashes = Vec::new(world.alloc);
    let inside = inside(word)?;
    if !inside.is_empty() {
        for item in inside.split(',') {
            push_item(world, &mut hashes, item)?;
        }
    }
    Ok(hashes)
}

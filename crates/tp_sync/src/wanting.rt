//! Which changes a document wants of another peer.

ghost use Rattle.std.specs.Prelude.{◌≡◌, ◌↔◌, ◌⊎◌, ◌≤◌, true, length, IfOk, IsOkUnless, MatchOption, OnOk};
ghost use Rattle.std.specs.List.{insert};
ghost use Rattle.tp_sync.specs.Common.{In, IsRising, hash_cmp};
ghost use Rattle.tp_list.specs.Rising as list;
ghost use Rattle.tp_opid.specs.declared.hash.Hash.{Hash as HashOf};
ghost use Rattle.tp_sync.specs.Wanting as wanting;
ghost use Rattle.tp_sync.specs.Wanting.{HasPut};
ghost use Rattle.tp_message.specs.declared.error.SyncError.TheVariants.{OutOfMemory};

use crate::state::SyncState;
use std::alloc::AllocError;
use std::cmp::Ordering;
use tp_graph::Graph;
use tp_message::{MAX_HASHES, SyncError};
use tp_opid::Hash;

// Whether neither an applied nor a waiting change has the hash.
fn is_absent(graph: &Graph, hash: &Hash) -> bool
    ensures { result ≡ wanting.is_absent graph.now.applied graph.now.waiting hash.now }
{
    !(graph.contains(hash) || graph.waits(hash))
}

// The index at which the hash belongs, or None where it is there. It is looked for from the end, so that rising hashes
// are put in one after another at once.
fn index_for(hashes: &[Hash], hash: &Hash) -> Option<usize>
    requires { IsRising hash_cmp hashes.now }
    ensures { MatchOption result (list.put hash_cmp hash.now hashes.now ≡ hashes.now)
        (λ i. (i ≤ length hashes.now)
        × (list.put hash_cmp hash.now hashes.now ≡ insert hashes.now i hash.now)) }
{
    for passed in 0..hashes.len() {
        let i = hashes.len() - passed;
        match hash.order(&hashes[i - 1]) {
            Ordering::Less => {}
            Ordering::Equal => return None,
            Ordering::Greater => return Some(i),
        }
    }
    Some(0)
}

/// Puts the hash at its index, once.
pub(crate) fn put(hashes: &mut Vec<Hash>, hash: Hash) -> Result<(), AllocError>
    requires { IsRising hash_cmp hashes.old.items }
    ensures { OnOk result (hashes.new.items ≡ list.put hash_cmp hash hashes.old.items) }
{
    if let Some(i) = index_for(hashes, &hash) {
        hashes.insert(i, hash)?;
    }
    Ok(())
}

// Puts those of the hashes that the document hasn't.
fn put_absent(graph: &Graph, found: &mut Vec<Hash>, hashes: &[Hash]) -> Result<(), AllocError>
    requires { IsRising hash_cmp found.old.items }
    ensures { OnOk result (HasPut graph.now.applied graph.now.waiting
        found.old.items hashes.now found.new.items) }
{
    for hash in hashes {
        if is_absent(graph, hash) {
            put(found, *hash)?;
        }
    }
    Ok(())
}

/// The hashes of the changes that the document wants, rising.
pub(crate) fn wants(graph: &Graph, state: &SyncState) -> Result<Vec<Hash>, SyncError>
    ensures wants { IfOk result (λ v. v.items
        ≡ wanting.wanted_hashes graph.now.applied graph.now.waiting state.now.theirs) }
    ensures err { IsOkUnless result OutOfMemory }
{
    let mut found = match graph.missing() {
        Ok(missing) => missing,
        Err(_) => return Err(SyncError::OutOfMemory),
    };
    put_absent(graph, &mut found, state.declared_heads())?;
    found.truncate(MAX_HASHES);
    Ok(found)
}

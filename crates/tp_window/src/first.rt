//! The heads that a document had when it had fewer changes.

ghost use Rattle.std.specs.Prelude.{◌≡◌, ◌<◌, ◌≤◌, length, IfOk, MatchOption, OnOk};
ghost use Rattle.tp_change.specs.ChangeHash.{hash_of};
ghost use Rattle.tp_history.specs.Heads.{heads as heads_of, without};
ghost use Rattle.tp_history.specs.Sound.{Sound};
ghost use Rattle.tp_list.specs.Rising as list;
ghost use Rattle.tp_opid.specs.Order.{hash_cmp};
ghost use Rattle.tp_window.specs.Requests.{AreFirstHeads};

use std::alloc::{AllocError, Global};
use tp_ancestry::put;
use tp_change::Change;
use tp_document::Document;
use tp_opid::Hash;
use tp_peer::PeerSequence;

// Takes out the hashes that are among others.
fn take_out(heads: &mut Vec<Hash>, others: &[Hash])
    ensures { heads.new.items ≡ without others.now heads.old.items }
{
    heads.retain(|hash| !hash.is_among(others));
}

// The heads where the change enters.
fn move_on(heads: &mut Vec<Hash>, change: &Change) -> Result<(), AllocError>
    ensures { OnOk result (heads.new.items
        ≡ list.put hash_cmp (hash_of change.now) (without change.now.deps heads.old.items)) }
{
    take_out(heads, change.deps());
    heads.reserve(1)?;
    put(heads, change.hash());
    Ok(())
}

// The heads of changes in an order in which each fitted, found as they entered one after another.
fn heads_after(alloc: Global, changes: &[Change]) -> Result<Vec<Hash>, AllocError>
    requires { Sound changes.now }
    ensures { IfOk result (λ heads. heads.items ≡ heads_of changes.now) }
{
    let mut heads = Vec::new(alloc);
    for change in changes {
        move_on(&mut heads, change)?;
    }
    Ok(heads)
}

/// The heads of the first changes of a document, as many as said, in the order in which they were applied: those that it had when
/// it had no more. `None` where it has fewer. The only refusal is that there is no memory. Where it has no more still, they are
/// copied; else it costs what keeping the heads cost as these changes entered.
pub(crate) fn first_heads(
    alloc: Global,
    document: &Document<PeerSequence>,
    count: u64,
) -> Result<Option<Vec<Hash>>, AllocError>
    ensures { IfOk result (λ found. MatchOption found (length document.now.applied < count)
        (λ heads. AreFirstHeads document.now.applied count heads.items)) }
{
    let changes = document.changes();
    if count > changes.len() as u64 {
        return Ok(None);
    }
    if count == changes.len() as u64 {
        return Ok(Some(Vec::from_slice(alloc, document.heads())?));
    }
    Ok(Some(heads_after(alloc, &changes[..count as usize])?))
}

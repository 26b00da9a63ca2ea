//! The hashes that waiting changes want.

ghost use Rattle.std.specs.Prelude.{◌≡◌, ◌↔◌, ◌||◌, if◌then◌else◌, IfOk, OnOk};
ghost use Rattle.tp_list.specs.Members.{In};
ghost use Rattle.tp_list.specs.Rising as list;
ghost use Rattle.tp_list.specs.Rising.{IsRising};
ghost use Rattle.tp_opid.specs.declared.hash.Hash.{Hash};
ghost use Rattle.tp_opid.specs.Order.{hash_cmp};
ghost use Rattle.tp_history.specs.Named as named;
ghost use Rattle.tp_graph.specs.Waiting.{gather, IsMissing};

use std::alloc::AllocError;
use tp_ancestry::{Ancestry, put};
use tp_change::Change;
use tp_opid::Hash;

/// Whether one of the changes has the hash.
pub(crate) fn has(changes: &[Change], hash: &Hash) -> bool
    ensures { result ≡ named.has changes.now hash.now }
{
    for change in changes {
        if change.hash().is(hash) {
            return true;
        }
    }
    false
}

// Puts the hash at its place, where neither the applied nor the waiting changes have it.
fn gather_one(
    ancestry: &Ancestry,
    found: &mut Vec<Hash>,
    waiting: &[Change],
    hash: &Hash,
) -> Result<(), AllocError>
    ensures { OnOk result (found.new.items
        ≡ (if named.has ancestry.now.changes hash.now || named.has waiting.now hash.now then found.old.items else list.put hash_cmp hash.now found.old.items)) }
{
    if ancestry.contains(hash) {
        return Ok(());
    }
    if has(waiting, hash) {
        return Ok(());
    }
    found.reserve(1)?;
    put(found, *hash);
    Ok(())
}

// Puts those of the hashes that neither the applied nor the waiting changes have.
fn gather_deps(
    ancestry: &Ancestry,
    found: &mut Vec<Hash>,
    waiting: &[Change],
    deps: &[Hash],
) -> Result<(), AllocError>
    ensures { OnOk result (found.new.items
        ≡ gather ancestry.now.changes waiting.now deps.now found.old.items) }
{
    for hash in deps {
        gather_one(ancestry, found, waiting, hash)?;
    }
    Ok(())
}

/// The dependencies of the waiting changes that are neither applied nor waiting, rising.
pub(crate) fn missing(ancestry: &Ancestry, waiting: &[Change]) -> Result<Vec<Hash>, AllocError>
    ensures rising { IfOk result (λ v. IsRising hash_cmp v.items) }
    ensures there { IfOk result
        (λ v. (h : Hash) → In h v.items ↔ IsMissing ancestry.now.changes waiting.now h) }
{
    let mut found = Vec::new(ancestry.alloc());
    for change in waiting {
        gather_deps(ancestry, &mut found, waiting, change.deps())?;
    }
    Ok(found)
}

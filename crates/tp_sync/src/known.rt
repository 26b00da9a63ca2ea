//! Which changes a message tells of as known.

ghost use Rattle.std.specs.Prelude.{◌≡◌, IfOk, IsOkUnless};
ghost use Rattle.tp_sync.specs.Known.{known_hashes};
ghost use Rattle.tp_message.specs.declared.error.SyncError.TheVariants.{OutOfMemory};

use crate::wanting::put;
use std::alloc::Global;
use tp_document::Document;
use tp_message::{MAX_KNOWN, SyncError};
use tp_opid::Hash;
use tp_rga::Sequence;

/// The hashes of the applied changes that are 1, 2, 4, 8 and so on places before the end of the list, rising: so where two
/// documents share a history, the other finds a change in it that isn't far from where they part. At most 32 look-ups.
pub(crate) fn collect_known<S: Sequence>(
    alloc: Global,
    document: &Document<S>,
) -> Result<Vec<Hash>, SyncError>
    ensures known { IfOk result (λ v. v.items ≡ known_hashes document.now.applied) }
    ensures err { IsOkUnless result OutOfMemory }
{
    let applied = document.changes();
    let mut known = Vec::with_capacity(alloc, MAX_KNOWN)?;
    let mut back: usize = 1;
    for _k in 0..MAX_KNOWN {
        if back <= applied.len() {
            let change = &applied[applied.len() - back];
            put(&mut known, change.hash())?;
        }
        back *= 2;
    }
    Ok(known)
}

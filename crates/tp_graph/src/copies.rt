//! Copies of changes.

ghost use Rattle.std.specs.Prelude.{◌≡◌, map, IfOk, IsOkUnless};
ghost use Rattle.tp_history.specs.declared.error.GraphError.TheVariants.{OutOfMemory};

use std::alloc::Global;
use tp_change::Change;
use tp_history::GraphError;

// A copy of the change.
fn copy_of(change: &Change) -> Result<Change, GraphError>
    ensures copied { IfOk result (λ copied. copied ≡ change.now) }
    ensures err { IsOkUnless result OutOfMemory }
{
    match change.copy() {
        Ok(copied) => Ok(copied),
        Err(_) => Err(GraphError::OutOfMemory),
    }
}

/// Copies of the changes, in their order.
pub(crate) fn copies_of(alloc: Global, changes: &[&Change]) -> Result<Vec<Change>, GraphError>
    ensures copied { IfOk result (λ v. v.items ≡ map (λ c. c.now) changes.now) }
    ensures err { IsOkUnless result OutOfMemory }
{
    let mut copies = Vec::with_capacity(alloc, changes.len())?;
    for change in changes {
        copies.push(copy_of(change)?)?;
    }
    Ok(copies)
}

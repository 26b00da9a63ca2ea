//! Looking whether there is something to do.

use crate::paths::Paths;
use std::alloc::AllocError;
use tp_disk::{Disk, Stamp};
use tp_mirror::Name;

/// What is seen of the journal, of NOTE, and of the files that were moved away, where these are there. While it stays the same a
/// turn finds nothing to do, but for files that nobody wrote to for long. No file is read.
pub fn look<D: Disk + AllocGlobal>(
    rt: &D,
    paths: &Paths,
    left: &[Name],
) -> Result<Vec<Option<Stamp>>, AllocError> {
    let mut seen = Vec::new(rt.alloc());
    seen.push(rt.stamp(paths.file.as_str()))?;
    seen.push(rt.stamp(paths.note.as_str()))?;
    for name in left {
        let path = paths.of_moved(rt.alloc(), *name)?;
        seen.push(rt.stamp(path.as_str()))?;
    }
    Ok(seen)
}

//! The folder that holds the files of an example.

use std::alloc::{AllocError, Global};

/// The folder, below the one in which the rows are run.
pub const FOLDER: &str = "program_rows.files";

/// The path of a file of the folder. One that begins with a slash stays.
pub fn inside(alloc: Global, path: &str) -> Result<String, AllocError> {
    if path.starts_with('/') {
        return String::from_str(alloc, path);
    }
    let mut inside = String::from_str(alloc, FOLDER)?;
    inside.push('/')?;
    inside.push_str(path)?;
    Ok(inside)
}

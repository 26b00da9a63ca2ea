//! The files beside NOTE.

ghost use Rattle.std.specs.Prelude.{◌≡◌, IfOk};
ghost use Rattle.std.specs.String.{string_bytes};
ghost use Rattle.tp_mirroring.specs.Beside.{moved_path, source_path};

use std::alloc::{AllocError, Global};
use tp_commands::CommandError;
use tp_disk::Disk;
use tp_mirror::{Name, Source};

/// The paths of a journal, of NOTE, and of the files beside NOTE that a mirror needs.
#[derive(Drop)]
pub struct Paths {
    /// The journal.
    pub file: String,
    /// NOTE.
    pub note: String,
    /// The state file: NOTE with `.mirror`.
    pub state: String,
    /// What is to become NOTE: NOTE with `.mirror-part`.
    pub part: String,
    /// What NOTE was at the first use, where the journal's text was taken: NOTE with `.before`.
    pub before: String,
}

impl Paths {
    /// The paths of a mirror of a journal and NOTE. NOTE's is that of the file itself, not of a link to it.
    pub fn new(alloc: Global, file: &str, note: &str) -> Result<Paths, AllocError>
        ensures file { IfOk result (λ paths. string_bytes paths.file ≡ file.now) }
        ensures note { IfOk result (λ paths. string_bytes paths.note ≡ note.now) }
    {
        Ok(Paths {
            file: String::from_str(alloc, file)?,
            note: String::from_str(alloc, note)?,
            state: format!(in alloc; "{note}.mirror")?,
            part: format!(in alloc; "{note}.mirror-part")?,
            before: format!(in alloc; "{note}.before")?,
        })
    }

    /// The path of a file that was NOTE and was moved away: NOTE with `.mirror-` and 32 digits.
    pub fn of_moved(&self, alloc: Global, name: Name) -> Result<String, AllocError>
        ensures { IfOk result (λ path. string_bytes path ≡ moved_path (string_bytes self.now.note) name) }
    {
        let digits = hex::encode(alloc, &name.0)?;
        let note = self.note.as_str();
        format!(in alloc; "{note}.mirror-{digits}")
    }

    /// The path of a file that is read.
    pub fn of_source(&self, alloc: Global, source: Source) -> Result<String, AllocError>
        ensures { IfOk result (λ path. string_bytes path ≡ source_path (string_bytes self.now.note) source) }
    {
        match source {
            Source::Note => String::from_str(alloc, self.note.as_str()),
            Source::Away(name) => self.of_moved(alloc, name),
        }
    }
}

/// Where NOTE itself is, if its path is that of a link.
pub fn place_of<D: Disk>(rt: &D, note: &str) -> Result<String, CommandError> {
    match rt.beyond(note)? {
        Some(place) => Ok(place),
        None => Err(CommandError::Io),
    }
}

//! The steps by which a file is put at a path.

ghost use Rattle.std.specs.Prelude.{◌≡◌, List, ℕ, true, None, IfOk, IfSome, OnOk, IsTrue};
ghost use Rattle.std.specs.String.{string_bytes};
ghost use Rattle.tp_disk.specs.DiskView.{DiskView, WasLeft};
ghost use Rattle.tp_disk.specs.declared.folders.Found.TheVariants.{Other};

use std::alloc::{AllocError, Global};
use std::fs::{File, OpenFile, OpenOptions, Permissions};
use std::io::{ErrorKind, Read, Write};
use std::rt::Files;
use std::{fs, io};
use tp_commands::CommandError;

// How many links are followed, as by Linux.
const MOST_LINKS: usize = 40;

/// What a path leads to.
#[derive(Drop)]
pub enum Found {
    /// A regular file of this mode.
    File(Permissions),
    /// Something else of this mode, as a pipe.
    Other(Permissions),
    /// Nothing.
    Nothing,
}

/// Folders, in which a file is put at a path by steps, such that a crash leaves what was there or all that is put there.
///
/// Contracts see by relations of its own that a step was taken, and each step asks for the one before it: a new file was made at a
/// path and these bytes were written to it (`wrote`); it was brought to the disk (`synced`); it got the name of a path
/// (`named`); and its folder was brought to the disk, so that the path was left with these bytes (`saw`, a `WasLeft`). What
/// the system does at a step is outside of them.
pub trait Folders {
    /// A new file.
    type New: Drop;

    /// The new file, its path, and the bytes that were written to it.
    ghost wrote: { Self → Self.New → List ℕ → List ℕ → Type 0 };

    /// The path of a new file, and the bytes with which it was brought to the disk.
    ghost synced: { Self → List ℕ → List ℕ → Type 0 };

    /// The path that such a file got, and its bytes.
    ghost named: { Self → List ℕ → List ℕ → Type 0 };

    /// What was seen of a file.
    ghost saw: { Self → DiskView → Type 0 };

    /// The path leads to no regular file that another could take the place of, but to one of another kind, or to one that is
    /// open already.
    ghost is_open: { Self → List ℕ → Type 0 };

    /// What the path leads to.
    fn find(&self, path: &str) -> Result<Found, CommandError>
        ensures { IfOk result (λ found. (mode : _) → found ≡ Other mode → is_open self.now path.now) };

    /// The path of the file itself, where this one may be that of a link. `None` where it leads to what is open already.
    fn beyond(&self, path: &str) -> Result<Option<String>, CommandError>
        ensures place { IfOk result (λ found. IfSome found (λ place. (bytes : List ℕ)
            → saw self.now (WasLeft (string_bytes place) bytes)
            → saw self.now (WasLeft path.now bytes))) }
        ensures open { IfOk result (λ found. found ≡ None → is_open self.now path.now) };

    /// Whether nothing is at the path, not even a link.
    fn is_absent(&self, path: &str) -> Result<bool, CommandError>;

    /// Whether the file at the path has just these bytes, so that it is one that was put there before.
    fn has(&self, path: &str, bytes: &[u8]) -> Result<bool, CommandError>
        ensures { IfOk result (λ has. IsTrue has → named self.now path.now bytes.now) };

    /// A name for a file beside the one at the path, with 16 bytes that nobody can guess.
    fn name_beside(&self, path: &str) -> Result<String, CommandError>;

    /// Makes a file of the mode at the path, where nothing is, and writes the bytes to it.
    fn write_new(
        &self,
        path: &str,
        mode: Permissions,
        bytes: &[u8],
    ) -> Result<Self::New, CommandError>
        ensures { IfOk result (λ new. wrote self.now new path.now bytes.now) };

    /// Brings a new file to the disk.
    fn sync_new(&self, new: Self::New) -> Result<(), CommandError>
        ensures { OnOk result ((path : List ℕ) (bytes : List ℕ) → wrote self.now new path bytes
            → synced self.now path bytes) };

    /// Gives a new file that is on the disk the other path, in place of what is there.
    fn rename(&self, part: &str, path: &str) -> io::Result<()>
        requires { (bytes : List ℕ) × synced self.now part.now bytes }
        ensures { OnOk result ((bytes : List ℕ) → synced self.now part.now bytes
            → named self.now path.now bytes) };

    /// Gives a new file that is on the disk the other path too, where nothing is.
    fn link(&self, part: &str, path: &str) -> io::Result<()>
        requires { (bytes : List ℕ) × synced self.now part.now bytes }
        ensures { OnOk result ((bytes : List ℕ) → synced self.now part.now bytes
            → named self.now path.now bytes) };

    /// Removes a file's path, as far as that can be done.
    fn remove(&self, path: &str);

    /// Gives a file that others write the other path, in place of what is there. `false` where nothing is at its path.
    fn move_file(&self, path: &str, other: &str) -> Result<bool, CommandError>;

    /// Brings to the disk which files the path's folder has, where a folder can be opened.
    fn sync_folder(&self, path: &str) -> Result<(), CommandError>
        requires { (bytes : List ℕ) × named self.now path.now bytes }
        ensures { OnOk result ((bytes : List ℕ) → named self.now path.now bytes
            → saw self.now (WasLeft path.now bytes)) };

    /// Writes after what was written to what is open already.
    fn write_after(&self, path: &str, bytes: &[u8]) -> Result<(), CommandError>
        requires { is_open self.now path.now }
        ensures { OnOk result (saw self.now (WasLeft path.now bytes.now)) };
}

// The folder of the file at the path.
fn folder_of(path: &str) -> &str {
    match path.rsplit_once('/') {
        Some(("", _)) => "/",
        Some((folder, _)) => folder,
        None => ".",
    }
}

// The path to which a link leads.
fn led_to(alloc: Global, link: &str, target: &str) -> Result<String, AllocError> {
    if target.starts_with('/') {
        String::from_str(alloc, target)
    } else {
        format!(in alloc; "{}/{target}", folder_of(link))
    }
}

/// Whether the path is one of the system's own, as that of the standard output.
pub(crate) fn is_of_system(path: &str) -> bool {
    path.starts_with("/dev/") || path.starts_with("/proc/")
}

// Gives the file the mode, if its file system has modes.
fn give_mode<F: OpenFile>(file: &F, mode: Permissions) -> io::Result<()> {
    match file.set_permissions(mode) {
        Err(error) => match error.kind() {
            ErrorKind::PermissionDenied | ErrorKind::Unsupported => Ok(()),
            _ => Err(error),
        },
        Ok(()) => Ok(()),
    }
}

/// The folders of the system. Its calls promise nothing of them.
impl<R: Files + AllocGlobal> Folders for R {
    type New = R::File;

    ghost wrote = { λ _ _ _ _. Unit {0} };

    ghost synced = { λ _ _ _. Unit {0} };

    ghost named = { λ _ _ _. Unit {0} };

    ghost saw = { λ _ _. Unit {0} };

    ghost is_open = { λ _ _. Unit {0} };

    fn find(&self, path: &str) -> Result<Found, CommandError> {
        match fs::metadata(self, path) {
            Ok(found) if found.is_file() => Ok(Found::File(found.permissions())),
            Ok(found) => Ok(Found::Other(found.permissions())),
            Err(error) if error.kind() == ErrorKind::NotFound => Ok(Found::Nothing),
            Err(error) => Err(CommandError::from(error)),
        }
    }

    fn beyond(&self, path: &str) -> Result<Option<String>, CommandError> {
        let mut place = String::from_str(self.alloc(), path)?;
        for _ in 0..MOST_LINKS {
            if is_of_system(place.as_str()) {
                return Ok(None);
            }
            match fs::symlink_metadata(self, place.as_str()) {
                Ok(found) if found.is_symlink() => {
                    let target = fs::read_link(self, place.as_str())?;
                    place = led_to(self.alloc(), place.as_str(), target.as_str())?;
                }
                Ok(_) => return Ok(Some(place)),
                Err(error) if error.kind() == ErrorKind::NotFound => return Ok(Some(place)),
                Err(error) => return Err(CommandError::from(error)),
            }
        }
        Err(CommandError::Io)
    }

    fn is_absent(&self, path: &str) -> Result<bool, CommandError> {
        match fs::symlink_metadata(self, path) {
            Ok(_) => Ok(false),
            Err(error) if error.kind() == ErrorKind::NotFound => Ok(true),
            Err(error) => Err(CommandError::from(error)),
        }
    }

    fn has(&self, path: &str, bytes: &[u8]) -> Result<bool, CommandError> {
        Ok(fs::read(self, path)?.as_slice() == bytes)
    }

    fn name_beside(&self, path: &str) -> Result<String, CommandError> {
        let mut drawn = [0; 16];
        let mut source = fs::open(self, "/dev/urandom")?;
        source.read_exact(&mut drawn)?;
        let digits = hex::encode(self.alloc(), &drawn)?;
        Ok(format!(in self.alloc(); "{path}.{digits}.part")?)
    }

    fn write_new(
        &self,
        path: &str,
        mode: Permissions,
        bytes: &[u8],
    ) -> Result<R::File, CommandError> {
        let mut file = File::create_new(self, path)?;
        give_mode(&file, mode)?;
        file.write_all(bytes)?;
        Ok(file)
    }

    fn sync_new(&self, new: R::File) -> Result<(), CommandError> {
        Ok(new.sync_all()?)
    }

    fn rename(&self, part: &str, path: &str) -> io::Result<()> {
        fs::rename(self, part, path)
    }

    fn link(&self, part: &str, path: &str) -> io::Result<()> {
        fs::hard_link(self, part, path)
    }

    fn move_file(&self, path: &str, other: &str) -> Result<bool, CommandError> {
        match fs::rename(self, path, other) {
            Ok(()) => Ok(true),
            Err(error) if error.kind() == ErrorKind::NotFound => Ok(false),
            Err(error) => Err(CommandError::from(error)),
        }
    }

    fn remove(&self, path: &str) {
        let _ = fs::remove_file(self, path);
    }

    fn sync_folder(&self, path: &str) -> Result<(), CommandError> {
        match fs::open(self, folder_of(path)) {
            Ok(folder) => Ok(folder.sync_all()?),
            Err(_) => Ok(()),
        }
    }

    fn write_after(&self, path: &str, bytes: &[u8]) -> Result<(), CommandError> {
        let mut file = OpenOptions::new().append(true).open(self, path)?;
        file.write_all(bytes)?;
        Ok(file.flush()?)
    }
}

//! A journal that is open, and the files beside NOTE.

ghost use Rattle.std.specs.Prelude.{◌≡◌, false};
ghost use Rattle.std.specs.String.{string_bytes};
ghost use Rattle.tp_commands.specs.Since.{GrowsAlone};
ghost use Rattle.tp_disk.specs.DiskView.{DiskView};
ghost use Rattle.tp_mirroring.specs.Seeing.{nothing_seen};
ghost use Rattle.tp_mirroring.specs.Taking.{HasTakings};

use crate::account::Account;
use crate::paths::Paths;
use crate::quiet::{is_left, now};
use crate::turning::Turning;
use rand_chacha::ChaCha20Rng;
use std::alloc::Global;
use std::marker::{Model, PhantomData};
use std::time::Clock;
use tp_commands::CommandError;
use tp_disk::{Disk, Stamp};
use tp_journal::Journal;
use tp_mirror::{MirrorError, Name, Source};
use tp_opid::DocId;
use tp_peer::Peer;

/// A journal that is open and locked for a turn, and the files beside NOTE.
#[derive(Drop)]
pub(crate) struct Folder<'a, D: Disk, J: Journal, K: Turning> {
    pub(crate) rt: &'a D,
    pub(crate) paths: &'a Paths,
    pub(crate) peer: Peer<J>,
    pub(crate) random: ChaCha20Rng,
    // The text that was read last, and of which file.
    pub(crate) text: String,
    pub(crate) source: Source,
    // Why a call failed.
    pub(crate) cause: Option<CommandError>,
    // A change was begun and not made.
    pub(crate) has_failed: bool,
    pub(crate) account: Account,
    pub(crate) of: PhantomData<K>,
}

impl<'a, D: Disk, J: Journal, K: Turning> Model for Folder<'a, D, J, K> {
    ghost use Rattle.std.specs.String.{string_bytes};
    ghost use Rattle.tp_mirroring.specs.Folder.{FolderView, IsFolder};

    ghost Value = { FolderView };

    ghost view = { λ f. record { seen = f.account; applied = f.peer.applied } };

    ghost invariant = { λ f. IsFolder (D.saw f.rt.now) K.saw (D.synced f.rt.now) (string_bytes f.paths.now.note) K.note
        (string_bytes f.paths.now.part) (string_bytes f.text) f.source f.account f.has_failed K.first f.peer };
}

/// What is left of a folder at its end.
#[derive(Drop)]
pub(crate) struct Ended<J: Journal> {
    /// The journal's peer.
    pub(crate) peer: Peer<J>,
    /// Why a call failed.
    pub(crate) cause: Option<CommandError>,
    /// Whether a change was begun and not made.
    pub(crate) has_failed: bool,
}

impl<'a, D: Disk + Clock + AllocGlobal, J: Journal, K: Turning> Folder<'a, D, J, K> {
    /// The files of the paths, with the journal's peer.
    pub(crate) fn new(
        rt: &'a D,
        paths: &'a Paths,
        peer: Peer<J>,
        random: ChaCha20Rng,
    ) -> Folder<'a, D, J, K>
        requires saw { (v : DiskView) → D.saw rt.now v → K.saw v }
        requires note { string_bytes paths.now.note ≡ K.note }
        requires first { peer ≡ K.first }
        requires runs { peer.stopped ≡ false }
        ensures { result.seen ≡ nothing_seen }
    {
        Folder {
            rt,
            paths,
            peer,
            random,
            text: String::new(rt.alloc()),
            source: Source::Note,
            cause: None,
            has_failed: false,
            account: Account::nothing(rt.alloc()),
            of: PhantomData,
        }
    }

    /// Ends it. What was taken is said of the peer.
    pub(crate) fn end(self) -> Ended<J>
        ensures grows { GrowsAlone K.first result.peer }
        ensures taken { HasTakings result.has_failed K.saw K.note K.first result.peer }
    {
        let Folder {
            rt: _,
            paths: _,
            peer,
            random: _,
            text: _,
            source: _,
            cause,
            has_failed,
            account: _,
            of: _,
        } = self;
        Ended {
            peer,
            cause,
            has_failed,
        }
    }

    /// Where memory is from.
    pub(crate) fn alloc(&self) -> Global {
        self.rt.alloc()
    }

    /// The journal's document.
    pub(crate) fn document(&self) -> DocId {
        self.peer.document().id()
    }

    // What is seen of a file that was moved away.
    fn moved_stamp(&self, name: Name) -> Result<Option<Stamp>, MirrorError> {
        let path = self.paths.of_moved(self.alloc(), name)?;
        Ok(self.rt.stamp(path.as_str()))
    }

    /// Whether nobody wrote to the file that was moved away for ten minutes, or nothing is there.
    pub(crate) fn is_left(&mut self, name: Name) -> Result<bool, MirrorError>
        ensures { self.new ≡ self.old }
    {
        match self.moved_stamp(name)? {
            None => Ok(true),
            Some(stamp) => match now(self.rt) {
                Ok(now) => Ok(is_left(now, &stamp)),
                Err(error) => Err(self.keep_cause(error)),
            },
        }
    }

    /// Keeps why a call failed.
    pub(crate) fn keep_cause(&mut self, error: CommandError) -> MirrorError
        ensures { self.new ≡ self.old }
    {
        if error == CommandError::OutOfMemory {
            return MirrorError::OutOfMemory;
        }
        self.cause = Some(error);
        MirrorError::Failed
    }
}

//! The texts of the journal.

ghost use Rattle.std.specs.Prelude.{◌≡◌, IfOk};
ghost use Rattle.std.specs.Str.{chars};
ghost use Rattle.std.specs.String.{string_bytes};
ghost use Rattle.tp_edit.specs.Text.{IsTextOf};
ghost use Rattle.tp_history.specs.Past.{past};
ghost use Rattle.tp_disk.specs.DiskView.{WasRead};
ghost use Rattle.tp_mirror.specs.declared.workspace.Look.TheVariants.{Text};
ghost use Rattle.tp_mirror.specs.Mirroring.{IsRead, with_look};
ghost use Rattle.tp_mirroring.specs.Beside.{source_path};
ghost use Rattle.tp_mirroring.specs.Seeing.{IsContentOf};

use crate::folder::Folder;
use crate::quiet::{Content, LONG_QUIET, patience};
use crate::turning::Turning;
use sha2::{Digest as _, Sha256};
use std::str;
use std::time::Clock;
use tp_commands::{CommandError, Metadata, rewrite_at};
use tp_disk::Disk;
use tp_journal::Journal;
use tp_list::{Items, char_count};
use tp_mirror::{
    Author, Change, Digest, Entries, Known, Look, MirrorError, Moved, Source, State, TextAt,
};
use tp_opid::Hash;

/// The digest of a text.
pub(crate) fn digest_of(text: &str) -> Digest {
    Digest(Sha256::digest(text.as_bytes()))
}

impl<'a, D: Disk + Clock + AllocGlobal, J: Journal, K: Turning> Folder<'a, D, J, K> {
    /// The journal's text at the heads.
    pub(crate) fn text_at(&mut self, heads: &[Hash]) -> Result<String, MirrorError>
        ensures same { self.new ≡ self.old }
        ensures text { IfOk result (λ t. IsTextOf (past self.old.applied heads.now) (chars (string_bytes t))) }
    {
        match self.peer.document().text_at(heads) {
            Ok(text) => Ok(text),
            Err(error) => Err(self.keep_cause(CommandError::from(error))),
        }
    }

    /// The text at the heads, by its digest.
    pub(crate) fn text_of_heads(&mut self, heads: Vec<Hash>) -> Result<TextAt, MirrorError>
        ensures same { self.new ≡ self.old }
    {
        let text = self.text_at(&heads)?;
        Ok(TextAt {
            digest: digest_of(text.as_str()),
            heads: Items::new(heads),
        })
    }

    // Whether the journal has all of the heads.
    fn has_heads(&self, heads: &[Hash]) -> bool {
        heads.iter().all(|h| self.peer.document().contains(h))
    }

    // Whether the text is the journal's at its heads.
    fn is_text(&mut self, text: &TextAt) -> Result<bool, MirrorError>
        ensures { self.new ≡ self.old }
    {
        if !self.has_heads(text.heads.as_slice()) {
            return Ok(false);
        }
        let found = self.text_at(text.heads.as_slice())?;
        Ok(digest_of(found.as_str()).is(&text.digest))
    }

    // Those of the texts that are the journal's.
    fn sound_texts(&mut self, texts: &[Known]) -> Result<Entries<Known>, MirrorError>
        ensures { self.new ≡ self.old }
    {
        let mut kept = Entries::new(Vec::new(self.alloc()));
        for known in texts {
            if self.is_text(&known.text)? {
                kept.push(known.copy(self.alloc())?)?;
            }
        }
        Ok(kept)
    }

    // The files that were moved away. One whose text isn't the journal's is read anew.
    fn sound_moved(&mut self, moved: &[Moved]) -> Result<Entries<Moved>, MirrorError>
        ensures { self.new ≡ self.old }
    {
        let mut kept = Entries::new(Vec::new(self.alloc()));
        for away in moved {
            let known = if self.is_text(&away.known.text)? {
                away.known.copy(self.alloc())?
            } else {
                Known {
                    generation: away.known.generation,
                    text: TextAt::empty(self.alloc()),
                }
            };
            kept.push(Moved {
                name: away.name,
                known,
            })?;
        }
        Ok(kept)
    }

    /// The state, without the texts that the journal doesn't have.
    pub(crate) fn sound_state(&mut self, state: State) -> Result<State, MirrorError>
        ensures { self.new ≡ self.old }
    {
        let texts = self.sound_texts(state.texts.as_slice())?;
        let moved = self.sound_moved(state.moved.as_slice())?;
        Ok(State {
            document: state.document,
            author: state.author,
            is_away: state.is_away,
            begun: state.begun,
            texts,
            moved,
        })
    }

    // The first and the last change of the author from the number on.
    fn span_of(&self, author: &Author) -> Option<(Hash, Hash)> {
        let mut span = None;
        for change in self.peer.document().changes() {
            if change.actor().is(&author.actor) && change.seq() >= author.seq {
                span = match span {
                    None => Some((change.hash(), change.hash())),
                    Some((first, _)) => Some((first, change.hash())),
                };
            }
        }
        span
    }

    /// The text at the last change of the author from the number on, with the heads on which the first of these was made. `None`
    /// where there is no such change.
    pub(crate) fn change_by(&mut self, author: &Author) -> Result<Option<Change>, MirrorError>
        ensures { self.new ≡ self.old }
    {
        let Some((first, last)) = self.span_of(author) else {
            return Ok(None);
        };
        let mut heads = Vec::new(self.alloc());
        heads.push(last)?;
        let text = self.text_of_heads(heads)?;
        match self.peer.document().get(&first) {
            Some(change) => Ok(Some(Change {
                text,
                base: Items::new(change.deps().to_vec(self.alloc())?),
            })),
            None => Ok(None),
        }
    }

    /// Whether all that the actor made is in the past of the heads, and the change is its next.
    pub(crate) fn may_go_on(&self, author: &Author, heads: &[Hash]) -> bool {
        let graph = self.peer.document().graph();
        if graph.count_by(&author.actor).checked_add(1) != Some(author.seq) {
            return false;
        }
        match (graph.clock(heads), graph.clock(graph.heads())) {
            (Ok(there), Ok(all)) => there.end(&author.actor) == all.end(&author.actor),
            _ => false,
        }
    }

    /// What is in a file, as long as it is quiet. A text is kept as the one that was read last.
    pub(crate) fn look(&mut self, source: Source, content: Content) -> Result<Look, MirrorError>
        requires { IsContentOf K.saw (source_path K.note source) content }
        ensures { IfOk result (λ look. self.new.seen ≡ with_look self.old.seen source look) }
    {
        match content {
            Content::Absent => Ok(self.keep_look(source, Look::Absent)),
            Content::Torn => Ok(self.keep_look(source, Look::Busy)),
            Content::Bytes(bytes, age) => self.look_at_bytes(source, &bytes, age),
        }
    }

    // What is seen of a file other than a text.
    fn keep_look(&mut self, source: Source, look: Look) -> Look
        requires { (d : _) → look ≡ Text d → ⊥ }
        ensures is { result ≡ look }
        ensures seen { self.new.seen ≡ with_look self.old.seen source look }
    {
        self.account.note_look(source, look);
        look
    }

    // What some bytes of a file are.
    fn look_at_bytes(&mut self, source: Source, bytes: &[u8], age: u64) -> Result<Look, MirrorError>
        requires { K.saw (WasRead (source_path K.note source) bytes.now) }
        ensures { IfOk result (λ look. self.new.seen ≡ with_look self.old.seen source look) }
    {
        if bytes.is_empty() {
            let look = if age < LONG_QUIET {
                Look::Empty
            } else {
                Look::LeftEmpty
            };
            return Ok(self.keep_look(source, look));
        }
        match str::from_utf8(bytes) {
            Ok(text) => self.look_at_text(source, text, age),
            Err(fault) => {
                self.cause = Some(CommandError::NotText {
                    at: fault.valid_up_to() as u64,
                });
                Ok(self.keep_look(source, Look::NotText))
            }
        }
    }

    // What a text of a file is.
    fn look_at_text(&mut self, source: Source, text: &str, age: u64) -> Result<Look, MirrorError>
        requires { K.saw (WasRead (source_path K.note source) text.now) }
        ensures { IfOk result (λ look. self.new.seen ≡ with_look self.old.seen source look) }
    {
        if age < patience(char_count(text), self.peer.document().len()) {
            return Ok(self.keep_look(source, Look::Busy));
        }
        let kept = String::from_str(self.alloc(), text)?;
        let look = Look::Text(digest_of(text));
        self.text = kept;
        self.source = source;
        self.account.note_look(source, look);
        Ok(look)
    }

    /// Makes the text that was read last the text at a change on the heads, or at several. The hashes of these.
    pub(crate) fn rewrite(
        &mut self,
        heads: &[Hash],
        author: &Author,
    ) -> Result<Vec<Hash>, MirrorError>
        requires { (source : _) × ((digest : _) × IsRead self.old.seen source digest) }
        ensures { self.new.seen ≡ self.old.seen }
    {
        if self.has_failed || self.peer.is_stopped() {
            return Err(MirrorError::Failed);
        }
        let by = Metadata {
            actor: author.actor,
            time: 0,
            message: "",
        };
        self.has_failed = true;
        match rewrite_at(
            self.rt.alloc(),
            &mut self.peer,
            heads,
            self.text.as_str(),
            &by,
        ) {
            Ok(hashes) => {
                self.has_failed = false;
                Ok(hashes)
            }
            Err(error) => Err(self.keep_cause(error.error)),
        }
    }
}

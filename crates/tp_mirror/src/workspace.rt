//! What is asked of the journal and of the folder.

ghost use Rattle.std.specs.Prelude.{◌≡◌, ℕ, List, IfOk, IfSome, OnOk, Some, None};
ghost use Rattle.tp_opid.specs.declared.hash.Hash.{Hash};
ghost use Rattle.tp_mirror.specs.declared.known.Digest.{Digest};
ghost use Rattle.tp_mirror.specs.declared.known.TextAt.{TextAt};
ghost use Rattle.tp_mirror.specs.declared.state.Author.{Author};
ghost use Rattle.tp_mirror.specs.declared.state.State.{State};
ghost use Rattle.tp_mirror.specs.declared.workspace.Source.{Source};
ghost use Rattle.tp_mirror.specs.Basing.{MayBase};
ghost use Rattle.tp_mirror.specs.Mirroring.{MirrorView, CanMove, CanRemove, CanSave, HasAllMade, IsMade, IsPart, IsRead, IsRecoverable, IsRemoved, IsNotBegun, MayPut, WatchesName, with_new_text, with_heads, with_moved, with_answer, with_part, with_look, with_state, without_part};

use crate::error::MirrorError;
use crate::known::{Digest, TextAt};
use crate::state::{Author, Name, State};

/// Which file is read.
#[derive(Clone, Copy, Debug, PartialEq, Eq)]
pub enum Source {
    /// NOTE.
    Note,
    /// A file that was moved away.
    Away(Name),
}

/// What a read of a file found.
#[derive(Clone, Copy, Debug, PartialEq, Eq)]
pub enum Look {
    /// Nothing is there.
    Absent,
    /// It isn't quiet: it was changed while it was read, or so shortly before that more may come.
    Busy,
    /// It isn't UTF-8.
    NotText,
    /// No byte is in it.
    Empty,
    /// No byte is in it, for so long that whoever emptied it has given up.
    LeftEmpty,
    /// A text, by its digest.
    Text(Digest),
}

/// The journal, the state file, NOTE, and the files that were moved away. Each call is one step after which a crash may
/// come.
///
/// Contracts see what is on the disk (`view`), which of two heads has all of the other (`includes`), that a text of the
/// journal was found to be so far from one that was read (`is_far`), and who may make a change on a text (`may_make`).
/// What others do to the journal and to NOTE between two calls is outside of it.
pub trait Workspace {
    /// What is on the disk, and what was read last.
    ghost view: { Self → MirrorView };

    /// The first heads have all that the second ones have.
    ghost includes: { List Hash → List Hash → Type 0 };

    /// This many characters were found to differ between a text of the journal and one that was read. Any measure will
    /// do.
    ghost is_far: { TextAt → Digest → ℕ → Type 0 };

    /// The author may make a change on the text: the actor's earlier changes are all in its past.
    ghost may_make: { Author → TextAt → Type 0 };

    /// What the state file has, or `None` where there is none. Texts whose heads the journal lacks, or whose digest
    /// isn't that of the journal's text there, are left out. A state file that isn't whole is `Failed`.
    fn load(&mut self) -> Result<Option<State>, MirrorError>
        ensures found { IfOk result (λ found. (view self.new).saved ≡ found) }
        ensures sound { OnOk result (IsRecoverable (view self.new)) };

    /// The text at the last change of the author that the state file names, from that number on, with the heads of the
    /// text on which it was made. `None` where there is no such change.
    fn made_last(&mut self, author: &Author) -> Result<Option<Change>, MirrorError>
        ensures same { OnOk result (view self.new ≡ view self.old) }
        ensures found { IfOk result (λ found. IfSome found (λ c. (view self.old).fresh ≡ Some c.text)) }
        ensures none { IfOk result (λ found. found ≡ None → (view self.old).fresh ≡ None) }
        ensures made { IfOk result (λ found. IfSome found (λ c. IsMade (view self.old) c.text)) };

    /// Reads a file.
    fn read(&mut self, source: Source) -> Result<Look, MirrorError>
        ensures { IfOk result (λ look. view self.new ≡ with_look (view self.old) source look) };

    /// How far a text of the journal is from the one that was read last.
    fn distance(&mut self, from: &TextAt, text: Digest) -> Result<u64, MirrorError>
        ensures same { OnOk result (view self.new ≡ view self.old) }
        ensures far { IfOk result (λ n. is_far from.now text n) };

    /// A fresh actor with its first change.
    fn fresh_author(&mut self) -> Result<Author, MirrorError>
        ensures { OnOk result (view self.new ≡ view self.old) };

    /// An author that may make a change on the text: this one, where it may, or a fresh actor with its first change.
    fn author_on(&mut self, base: &TextAt, author: &Author) -> Result<Author, MirrorError>
        ensures same { OnOk result (view self.new ≡ view self.old) }
        ensures may { IfOk result (λ found. may_make found base.now) };

    /// Makes the text that was read last a change on the base, by the author that the state file names.
    fn make(&mut self, base: &TextAt, text: Digest, author: &Author) -> Result<TextAt, MirrorError>
        requires sound { IsRecoverable (view self.old) }
        requires first { (view self.old).fresh ≡ None }
        requires base { (source : Source) × IsRead (view self.old) source text
            × ((s : State) → (view self.old).saved ≡ Some s → MayBase is_far s source text base.now) }
        requires author { (s : State) → (view self.old).saved ≡ Some s → s.author ≡ author.now }
        requires may { may_make author.now base.now }
        ensures { IfOk result (λ made. (made.digest ≡ text) × (view self.new ≡ with_new_text (view self.old) made)) };

    /// The text at the journal's heads.
    fn heads(&mut self) -> Result<TextAt, MirrorError>
        ensures { IfOk result (λ now. (view self.new ≡ with_heads (view self.old) now) × HasAllMade includes (view self.new) now) };

    /// Puts the state file in the place of the one before, and on the disk.
    fn save(&mut self, state: &State) -> Result<(), MirrorError>
        requires sound { IsRecoverable (view self.old) }
        requires can { CanSave (view self.old) state.now }
        ensures { OnOk result (view self.new ≡ with_state (view self.old) state.now) };

    /// The end of a name that no file has.
    fn fresh_name(&mut self) -> Result<Name, MirrorError>
        ensures { OnOk result (view self.new ≡ view self.old) };

    /// Writes what is to become NOTE to a file of its own, and to the disk.
    fn write_part(&mut self, text: &TextAt) -> Result<(), MirrorError>
        requires { MayPut includes (view self.old) text.now }
        ensures { OnOk result (view self.new ≡ with_part (view self.old) text.now) };

    /// Gives NOTE the name of a file that was moved away. Where NOTE is gone, nothing is done. `known` is the text that
    /// was read there, and `put` what is to become NOTE.
    fn move_away(&mut self, name: Name, known: &TextAt, put: &TextAt) -> Result<(), MirrorError>
        requires sound { IsRecoverable (view self.old) }
        requires read { CanMove (view self.old) known.now }
        requires watched { (s : State) → (view self.old).saved ≡ Some s → WatchesName s name }
        requires part { IsPart (view self.old) put.now }
        requires put { MayPut includes (view self.old) put.now }
        ensures { OnOk result (view self.new ≡ with_moved (view self.old) name) };

    /// Gives what was written the name of NOTE too, where nothing has it. Whether it got it.
    fn link_note(&mut self, put: &TextAt) -> Result<bool, MirrorError>
        requires sound { IsRecoverable (view self.old) }
        requires part { IsPart (view self.old) put.now }
        requires put { MayPut includes (view self.old) put.now }
        ensures { IfOk result (λ linked. view self.new ≡ with_answer (view self.old) put.now linked) };

    /// Removes the name under which what was to become NOTE was written.
    fn remove_part(&mut self) -> Result<(), MirrorError>
        ensures { OnOk result (view self.new ≡ without_part (view self.old)) };

    /// Removes a file that was moved away, where it is there. `known` is the text that was read there.
    fn remove_moved(&mut self, name: Name, known: &TextAt) -> Result<(), MirrorError>
        requires sound { IsRecoverable (view self.old) }
        requires read { CanRemove (view self.old) name known.now }
        ensures { OnOk result (IsRemoved (view self.old) name (view self.new)) };

    /// Gives NOTE the name `NOTE.before`, where nothing has that, and takes its own from it.
    fn keep_before(&mut self) -> Result<(), MirrorError>
        requires first { (view self.old).saved ≡ None }
        requires unused { IsNotBegun (view self.old) }
        ensures { OnOk result (view self.new ≡ view self.old) };
}

/// A change that was made of a text.
#[derive(Drop)]
pub struct Change {
    /// The text.
    pub text: TextAt,
    /// The heads on which it was made: those of the text that was its base.
    pub base: tp_list::Items<tp_opid::Hash>,
}

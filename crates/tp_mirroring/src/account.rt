//! What the calls of a mirror left so far.
#![tactic(auto, unfolding(tp_mirror::specs::Mirroring::with_answer, tp_mirror::specs::Mirroring::with_heads, tp_mirror::specs::Mirroring::with_look, tp_mirror::specs::Mirroring::with_moved, tp_mirror::specs::Mirroring::with_new_text, tp_mirror::specs::Mirroring::with_part, tp_mirror::specs::Mirroring::with_state, tp_mirror::specs::Mirroring::without_part, crate::specs::Seeing::first_seen, crate::specs::Seeing::nothing_seen, crate::specs::Seeing::texts_of))]

ghost use Rattle.std.specs.Prelude.{◌≡◌, IfOk, OnErr, OnOk, map};
ghost use Rattle.tp_mirror.specs.Mirroring.{IsRemoved, with_answer, with_heads, with_look, with_moved, with_new_text, with_part, with_state, without_part};
ghost use Rattle.tp_mirroring.specs.Seeing.{first_seen, nothing_seen, text_of, texts_of};

use std::alloc::{AllocError, AllocFailed, Global};
use std::marker::Model;
use tp_list::{Items, copy_with_room};
use tp_mirror::{Change, Known, Look, Moved, Name, Source, State, TextAt};

/// What a read found, and of which file.
#[derive(Clone, Copy)]
pub(crate) struct FileSeen {
    /// The file.
    pub(crate) source: Source,
    /// What was found.
    pub(crate) look: Look,
}

/// What was to become NOTE, and whether it did.
#[derive(Drop)]
pub(crate) struct Linked {
    /// The text.
    pub(crate) text: TextAt,
    /// Whether it became NOTE.
    pub(crate) is_linked: bool,
}

/// What is on the disk, and what was read last, as the calls of a mirror left it: contracts see it as that. A turn keeps it, and
/// drops it at its end.
#[derive(Drop)]
pub(crate) struct Account {
    saved: Option<State>,
    made: Vec<TextAt>,
    last: Option<Change>,
    is_away: bool,
    part: Option<TextAt>,
    names: Vec<Name>,
    read: Option<FileSeen>,
    linked: Option<Linked>,
}

impl Model for Account {
    ghost use Rattle.tp_mirror.specs.Mirroring.{MirrorView};
    ghost use Rattle.tp_mirroring.specs.Seeing.{link_answer_of, read_of, text_of};

    ghost Value = { MirrorView };

    ghost view = { λ a. record {
      saved = a.saved;
      made = a.made.items;
      fresh = text_of a.last;
      away = a.is_away;
      part = a.part;
      names = a.names.items;
      read = read_of a.read;
      linked = link_answer_of a.linked;
    } };
}

// The texts of a state, and that of a change which it doesn't have.
fn texts_in(alloc: Global, state: &State, last: &Option<Change>) -> Result<Vec<TextAt>, AllocError>
    ensures { IfOk result (λ texts. texts.items ≡ texts_of state.now (text_of last.now)) }
{
    let mut texts = Vec::new(alloc);
    for known in state.texts.as_slice() {
        texts.push(known.text.copy(alloc)?)?;
    }
    for away in state.moved.as_slice() {
        texts.push(away.known.text.copy(alloc)?)?;
    }
    if let Some(change) = last {
        texts.push(change.text.copy(alloc)?)?;
    }
    Ok(texts)
}

/// The names of the files that were moved away.
pub(crate) fn names_of(alloc: Global, moved: &[Moved]) -> Result<Vec<Name>, AllocError>
    ensures { IfOk result (λ names. names.items ≡ map (λ m. m.name) moved.now) }
{
    let mut names = Vec::new(alloc);
    for away in moved {
        names.push(away.name)?;
    }
    Ok(names)
}

impl Account {
    /// Where there is no state file.
    pub(crate) fn nothing(alloc: Global) -> Account
        ensures { result ≡ nothing_seen }
    {
        Account {
            saved: None,
            made: Vec::new(alloc),
            last: None,
            is_away: false,
            part: None,
            names: Vec::new(alloc),
            read: None,
            linked: None,
        }
    }

    /// Where the state file has the state, and lacks a change.
    pub(crate) fn first(
        alloc: Global,
        state: &State,
        last: Option<Change>,
    ) -> Result<Account, AllocError>
        ensures { IfOk result (λ account. account ≡ first_seen state.now (text_of last)) }
    {
        Ok(Account {
            saved: Some(state.copy(alloc)?),
            made: texts_in(alloc, state, &last)?,
            last,
            is_away: state.is_away,
            part: None,
            names: names_of(alloc, state.moved.as_slice())?,
            read: None,
            linked: None,
        })
    }

    /// A copy of the change that the state file lacks.
    pub(crate) fn copy_last(&self, alloc: Global) -> Result<Option<Change>, AllocError>
        ensures { IfOk result (λ last. self.now.fresh ≡ text_of last) }
    {
        match &self.last {
            None => Ok(None),
            Some(change) => Ok(Some(Change {
                text: change.text.copy(alloc)?,
                base: Items::new(copy_with_room(alloc, change.base.as_slice())?),
            })),
        }
    }

    /// A file was read.
    pub(crate) fn note_look(&mut self, source: Source, look: Look)
        ensures { self.new ≡ with_look self.old source look }
    {
        self.read = Some(FileSeen { source, look });
        self.is_away = match (source, look) {
            (Source::Note, Look::LeftEmpty) | (Source::Note, Look::Text(_)) => false,
            _ => self.is_away,
        };
    }

    /// A change was made: the text is its copy.
    pub(crate) fn add_change(
        &mut self,
        text: TextAt,
        last: Change,
    ) -> Result<(), AllocFailed<TextAt>>
        requires { last.text ≡ text }
        ensures ok { OnOk result (self.new ≡ with_new_text self.old text) }
        ensures same { OnErr result (self.new ≡ self.old) }
    {
        self.made.push(text)?;
        self.last = Some(last);
        Ok(())
    }

    /// The journal's text was read.
    pub(crate) fn add_heads(&mut self, text: TextAt) -> Result<(), AllocFailed<TextAt>>
        ensures ok { OnOk result (self.new ≡ with_heads self.old text) }
        ensures same { OnErr result (self.new ≡ self.old) }
    {
        self.made.push(text)
    }

    /// The state file has the state.
    pub(crate) fn save(&mut self, state: State)
        ensures { self.new ≡ with_state self.old state }
    {
        self.saved = Some(state);
        self.last = None;
    }

    /// What is to become NOTE was written.
    pub(crate) fn write(&mut self, text: TextAt)
        ensures { self.new ≡ with_part self.old text }
    {
        self.part = Some(text);
    }

    /// NOTE was moved away.
    pub(crate) fn add_name(&mut self, name: Name) -> Result<(), AllocFailed<Name>>
        ensures ok { OnOk result (self.new ≡ with_moved self.old name) }
        ensures same { OnErr result (self.new ≡ self.old) }
    {
        self.names.push(name)?;
        self.is_away = true;
        Ok(())
    }

    /// What was written was to get NOTE's name, and did or didn't.
    pub(crate) fn link(&mut self, text: TextAt, is_linked: bool)
        ensures { self.new ≡ with_answer self.old text is_linked }
    {
        self.linked = Some(Linked { text, is_linked });
        if is_linked {
            self.is_away = false;
        }
    }

    /// What was written has its own name no more.
    pub(crate) fn drop_part(&mut self)
        ensures { self.new ≡ without_part self.old }
    {
        self.part = None;
    }

    /// A file that was moved away is there no more.
    pub(crate) fn drop_name(&mut self, name: Name)
        ensures { IsRemoved self.old name self.new }
    {
        self.names.retain(|n| *n != name);
    }
}

//! The first use, where there is no state file.

ghost use Rattle.std.specs.Prelude.{◌≡◌, ◌↔◌, None, Some, Ok, Err, IfOk, OnOk};
ghost use Rattle.tp_mirror.specs.declared.error.MirrorError.TheVariants.{BothHaveText};
ghost use Rattle.tp_mirror.specs.declared.first_use.FirstUse.TheVariants.{KeepBefore, Write};
ghost use Rattle.tp_mirror.specs.declared.first_use.Take.TheVariants.{Journal};
ghost use Rattle.tp_mirror.specs.declared.workspace.Look.TheVariants.{Absent};
ghost use Rattle.tp_mirror.specs.declared.known.Known.{Known};
ghost use Rattle.tp_mirror.specs.FirstUses.{AreTwo, HaveTwo, IsFirst};
ghost use Rattle.tp_mirror.specs.Mirroring.{IsKept, IsNotBegun};

use crate::entries::Entries;
use crate::error::MirrorError;
use crate::known::{Digest, Known, TextAt};
use crate::state::{Author, State};
use crate::workspace::{Look, Source, Workspace};
use std::alloc::Global;
use tp_opid::DocId;

/// Which text counts at the first use, where NOTE and the journal have different ones.
#[derive(Clone, Copy, Debug, PartialEq, Eq)]
pub enum Take {
    /// NOTE's: it is made a change on the journal's, which stays in the history.
    Text,
    /// The journal's: NOTE's stays in the file `NOTE.before`.
    Journal,
}

/// What is done at the first use.
#[derive(Clone, Copy)]
pub(crate) enum FirstUse {
    /// NOTE is written.
    Write,
    /// NOTE's text is made a change on the journal's, where it is another one.
    Import,
    /// NOTE gets the name `NOTE.before`, and is written.
    KeepBefore,
}

// What is done where NOTE has a text.
fn judge_text(text: Digest, now: Digest, take: Option<Take>) -> Result<FirstUse, MirrorError>
    ensures both { (result ≡ Err BothHaveText) ↔ (AreTwo Digest.EMPTY text now × (take ≡ None)) }
    ensures before { (result ≡ Ok KeepBefore) ↔ (AreTwo Digest.EMPTY text now × (take ≡ Some Journal)) }
    ensures write { result ≡ Ok Write → ⊥ }
{
    if text.is(&now) || now.is(&Digest::EMPTY) {
        return Ok(FirstUse::Import);
    }
    match take {
        None => Err(MirrorError::BothHaveText),
        Some(Take::Text) => Ok(FirstUse::Import),
        Some(Take::Journal) => Ok(FirstUse::KeepBefore),
    }
}

// What is done, of what was found of NOTE and the journal's text.
fn judge(look: Look, now: Digest, take: Option<Take>) -> Result<FirstUse, MirrorError>
    ensures both { (result ≡ Err BothHaveText) ↔ (HaveTwo Digest.EMPTY now look × (take ≡ None)) }
    ensures before { (result ≡ Ok KeepBefore) ↔ (HaveTwo Digest.EMPTY now look × (take ≡ Some Journal)) }
    ensures write { (result ≡ Ok Write) ↔ (look ≡ Absent) }
{
    match look {
        Look::Absent => Ok(FirstUse::Write),
        Look::Busy => Err(MirrorError::Busy),
        Look::NotText => Err(MirrorError::NotText),
        Look::Empty | Look::LeftEmpty => Ok(FirstUse::Import),
        Look::Text(text) => judge_text(text, now, take),
    }
}

// Keeps NOTE as NOTE.before where that is to be done. Whether nothing is at NOTE then.
fn make_room<W: Workspace>(workspace: &mut W, first: FirstUse) -> Result<bool, MirrorError>
    requires saved { (W.view workspace.old).saved ≡ None }
    requires unused { IsNotBegun (W.view workspace.old) }
    ensures { OnOk result (W.view workspace.new ≡ W.view workspace.old) }
{
    match first {
        FirstUse::Write => Ok(true),
        FirstUse::Import => Ok(false),
        FirstUse::KeepBefore => {
            workspace.keep_before()?;
            Ok(true)
        }
    }
}

// The first state: the journal's text begins the first generation.
fn first_state(
    alloc: Global,
    document: DocId,
    author: Author,
    is_away: bool,
    now: TextAt,
) -> Result<State, MirrorError>
    ensures { IfOk result (IsFirst now) }
{
    let mut texts = Entries::new(Vec::new(alloc));
    texts.push(Known {
        generation: 0,
        text: now,
    })?;
    Ok(State {
        document,
        author,
        is_away,
        begun: 1,
        texts,
        moved: Entries::new(Vec::new(alloc)),
    })
}

/// Looks at NOTE and at the journal for the first time, and writes the first state file: the rounds do the rest.
pub(crate) fn begin<W: Workspace>(
    workspace: &mut W,
    alloc: Global,
    document: DocId,
    take: Option<Take>,
) -> Result<State, MirrorError>
    requires saved { (W.view workspace.old).saved ≡ None }
    requires unused { IsNotBegun (W.view workspace.old) }
    ensures { IfOk result (λ state. IsKept (W.view workspace.new) state None) }
{
    let look = workspace.read(Source::Note)?;
    let now = workspace.heads()?;
    let first = judge(look, now.digest, take)?;
    let is_away = make_room(workspace, first)?;
    let author = workspace.fresh_author()?;
    let state = first_state(alloc, document, author, is_away, now)?;
    workspace.save(&state)?;
    Ok(state)
}

//! The start, which goes on from what a crash left.

ghost use Rattle.std.specs.Prelude.{◌≡◌, true, false, None, Some, IfOk, OnOk, OnErr};
ghost use Rattle.tp_opid.specs.Same.{same_doc};
ghost use Rattle.tp_mirror.specs.Mirroring.{IsKept, IsRecoverable};

use crate::base::last_of;
use crate::error::MirrorError;
use crate::first_use::{Take, begin};
use crate::state::State;
use crate::taking::remember;
use crate::workspace::Workspace;
use std::alloc::Global;
use tp_opid::{DocId, Hash};

// The generation whose last text is at these heads, where there is one.
fn generation_at(state: &State, heads: &[Hash]) -> Option<u64> {
    let texts = state.texts.as_slice();
    let mut found = None;
    for at in 0..texts.len() {
        let known = &texts[at];
        if known.text.heads.as_slice() == heads && last_of(texts, known.generation) == Some(at) {
            found = Some(known.generation);
        }
    }
    found
}

// Remembers the change that was made last, where a crash came before it was remembered.
fn resume<W: Workspace>(workspace: &mut W, state: &mut State) -> Result<(), MirrorError>
    requires sound { IsRecoverable (W.view workspace.old) }
    requires saved { (W.view workspace.old).saved ≡ Some state.old }
    ensures { OnOk result (IsKept (W.view workspace.new) state.new None) }
{
    let last = workspace.made_last(&state.author)?;
    match last {
        None => Ok(()),
        Some(change) => {
            let generation = generation_at(state, change.base.as_slice());
            remember(workspace, state, generation, change.text)?;
            Ok(())
        }
    }
}

// Whether the state is of the document.
fn check_document(state: &State, document: &DocId) -> Result<(), MirrorError>
    ensures ok { OnOk result (same_doc state.now.document document.now ≡ true) }
    ensures err { OnErr result (same_doc state.now.document document.now ≡ false) }
{
    if state.document.is(document) {
        return Ok(());
    }
    Err(MirrorError::OtherDocument)
}

// The state that the state file has, with the last change, or the first state.
fn load_or_begin<W: Workspace>(
    workspace: &mut W,
    alloc: Global,
    document: DocId,
    take: Option<Take>,
) -> Result<State, MirrorError>
    ensures { IfOk result (λ state. IsKept (W.view workspace.new) state None) }
{
    match workspace.load()? {
        None => begin(workspace, alloc, document, take),
        Some(mut state) => {
            check_document(&state, &document)?;
            resume(workspace, &mut state)?;
            Ok(state)
        }
    }
}

/// What the state file has, with the change that was made last, where a crash came before it was remembered. Where
/// there is no state file, NOTE and the journal are looked at for the first time: what is only in one of them is taken,
/// and where both have a text, they have to be equal, or `take` says which one counts. `BothHaveText` and
/// `OtherDocument`, where the state file is another document's, leave everything as it was.
pub fn start<W: Workspace>(
    workspace: &mut W,
    alloc: Global,
    document: DocId,
    take: Option<Take>,
) -> Result<State, MirrorError>
    ensures { IfOk result (λ state. IsKept (W.view workspace.new) state None) }
{
    let state = load_or_begin(workspace, alloc, document, take)?;
    workspace.remove_part()?;
    Ok(state)
}

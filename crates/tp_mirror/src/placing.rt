//! NOTE gets the journal's text.

ghost use Rattle.std.specs.Prelude.{◌≡◌, false, None, IfOk, OnOk, IsTrue};
ghost use Rattle.tp_mirror.specs.declared.workspace.Look.TheVariants.{Text};
ghost use Rattle.tp_mirror.specs.declared.workspace.Source.TheVariants.{Note};
ghost use Rattle.tp_mirror.specs.Mirroring.{CanMove, HasAllMade, IsKept, IsLeftEmpty, IsMade, IsPart, IsTaken, Knows, MayPut, WatchesName, with_state};
ghost use Rattle.tp_mirror.specs.Outcomes.{IsOutcome, WasFound};

use crate::error::MirrorError;
use crate::generations::begin_generation;
use crate::known::{Known, TextAt};
use crate::outcome::Outcome;
use crate::state::{Moved, State};
use crate::workspace::Workspace;

// The state file says that NOTE is about to be moved away and to get the text.
fn intend<W: Workspace>(
    workspace: &mut W,
    state: &mut State,
    moved: Moved,
    now: TextAt,
) -> Result<(), MirrorError>
    requires kept { IsKept (W.view workspace.old) state.old None }
    requires made { IsMade (W.view workspace.old) moved.known.text }
    requires now { IsMade (W.view workspace.old) now }
    ensures kept { OnOk result (IsKept (W.view workspace.new) state.new None) }
    ensures watches { OnOk result (WatchesName state.new moved.name) }
    ensures knows { OnOk result (Knows state.new now) }
    ensures away { OnOk result (IsTrue state.new.is_away) }
    ensures saved { OnOk result (W.view workspace.new ≡ with_state (W.view workspace.old) state.new) }
{
    state.moved.push(moved)?;
    begin_generation(state, now)?;
    state.is_away = true;
    workspace.save(state)?;
    Ok(())
}

// Gives NOTE what was written, where nothing is there.
fn place<W: Workspace>(
    workspace: &mut W,
    state: &mut State,
    now: &TextAt,
) -> Result<Outcome, MirrorError>
    requires kept { IsKept (W.view workspace.old) state.old None }
    requires part { IsPart (W.view workspace.old) now.now }
    requires put { MayPut W.includes (W.view workspace.old) now.now }
    ensures kept { OnOk result (IsKept (W.view workspace.new) state.new None) }
    ensures outcome { IfOk result (IsOutcome W.includes (W.view workspace.new)) }
{
    let is_linked = workspace.link_note(now)?;
    if is_linked {
        workspace.remove_part()?;
        state.is_away = false;
        workspace.save(state)?;
        return Ok(Outcome::Put);
    }
    workspace.remove_part()?;
    Ok(Outcome::Again)
}

/// Moves NOTE away, and puts the text there. `known` is what was read there.
pub(crate) fn replace<W: Workspace>(
    workspace: &mut W,
    state: &mut State,
    known: Known,
    now: TextAt,
) -> Result<Outcome, MirrorError>
    requires kept { IsKept (W.view workspace.old) state.old None }
    requires read { CanMove (W.view workspace.old) known.text }
    requires made { IsMade (W.view workspace.old) known.text }
    requires now { IsMade (W.view workspace.old) now }
    requires whole { HasAllMade W.includes (W.view workspace.old) now }
    ensures kept { OnOk result (IsKept (W.view workspace.new) state.new None) }
    ensures outcome { IfOk result (IsOutcome W.includes (W.view workspace.new)) }
{
    let name = workspace.fresh_name()?;
    let moved = Moved {
        name,
        known: known.copy(state.texts.alloc())?,
    };
    let next = now.copy(state.texts.alloc())?;
    intend(workspace, state, moved, next)?;
    workspace.write_part(&now)?;
    workspace.move_away(name, &known.text, &now)?;
    let outcome = place(workspace, state, &now)?;
    Ok(outcome)
}

// Whether the text is one that is known.
fn is_known(state: &State, now: &TextAt) -> bool {
    state.texts.as_slice().iter().any(|k| k.text.digest.is(&now.digest)
        && k.text.heads.as_slice() == now.heads.as_slice())
}

// NOTE has the text at the journal's heads: it is remembered with these, and NOTE isn't away.
fn settle<W: Workspace>(
    workspace: &mut W,
    state: &mut State,
    now: TextAt,
) -> Result<Outcome, MirrorError>
    requires kept { IsKept (W.view workspace.old) state.old None }
    requires now { IsMade (W.view workspace.old) now }
    requires there { (W.view workspace.old).away ≡ false }
    requires read { WasFound (W.view workspace.old) Note (Text now.digest) }
    requires whole { HasAllMade W.includes (W.view workspace.old) now }
    ensures kept { OnOk result (IsKept (W.view workspace.new) state.new None) }
    ensures outcome { IfOk result (IsOutcome W.includes (W.view workspace.new)) }
{
    if is_known(state, &now) && !state.is_away {
        return Ok(Outcome::InStep);
    }
    begin_generation(state, now)?;
    state.is_away = false;
    workspace.save(state)?;
    Ok(Outcome::InStep)
}

/// Gives NOTE the journal's text, where it isn't the one that was read there.
pub(crate) fn put<W: Workspace>(
    workspace: &mut W,
    state: &mut State,
    note: Known,
) -> Result<Outcome, MirrorError>
    requires { IsTaken (W.view workspace.old) state.old Note note.text.digest note }
    ensures kept { OnOk result (IsKept (W.view workspace.new) state.new None) }
    ensures outcome { IfOk result (IsOutcome W.includes (W.view workspace.new)) }
{
    let now = workspace.heads()?;
    if now.digest.is(&note.text.digest) {
        let outcome = settle(workspace, state, now)?;
        return Ok(outcome);
    }
    let outcome = replace(workspace, state, note, now)?;
    Ok(outcome)
}

/// Gives NOTE the journal's text, where nothing is there since it was moved away.
pub(crate) fn put_again<W: Workspace>(
    workspace: &mut W,
    state: &mut State,
) -> Result<Outcome, MirrorError>
    requires kept { IsKept (W.view workspace.old) state.old None }
    requires away { IsTrue state.old.is_away }
    ensures kept { OnOk result (IsKept (W.view workspace.new) state.new None) }
    ensures outcome { IfOk result (IsOutcome W.includes (W.view workspace.new)) }
{
    let now = workspace.heads()?;
    let next = now.copy(state.texts.alloc())?;
    begin_generation(state, next)?;
    workspace.save(state)?;
    workspace.write_part(&now)?;
    let outcome = place(workspace, state, &now)?;
    Ok(outcome)
}

/// Moves a NOTE away that is left without a byte, and puts the journal's text there.
pub(crate) fn put_back<W: Workspace>(
    workspace: &mut W,
    state: &mut State,
) -> Result<Outcome, MirrorError>
    requires kept { IsKept (W.view workspace.old) state.old None }
    requires read { IsLeftEmpty (W.view workspace.old) }
    ensures kept { OnOk result (IsKept (W.view workspace.new) state.new None) }
    ensures outcome { IfOk result (IsOutcome W.includes (W.view workspace.new)) }
{
    let now = workspace.heads()?;
    let known = Known {
        generation: state.begun,
        text: now.copy(state.texts.alloc())?,
    };
    let outcome = replace(workspace, state, known, now)?;
    Ok(outcome)
}

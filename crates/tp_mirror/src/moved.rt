//! Files that were moved away, to which an editor that has one open may still write.

ghost use Rattle.std.specs.Prelude.{◌≡◌, ◌<◌, length, false, None, Some, Ok, OnOk, slice_get};
ghost use Rattle.tp_mirror.specs.declared.known.TextAt.{TextAt};
ghost use Rattle.tp_mirror.specs.declared.state.Moved.{Moved};
ghost use Rattle.tp_mirror.specs.Mirroring.{CanRemove, IsKept, IsMade};
ghost use Rattle.tp_mirror.specs.Outcomes.{FoundBusy};

use crate::error::MirrorError;
use crate::known::{Known, TextAt};
use crate::state::{Moved, Name, State};
use crate::taking::take_in;
use crate::workspace::{Look, Source, Workspace};

// Remembers what was read of a file that was moved away.
fn rewatch<W: Workspace>(
    workspace: &mut W,
    state: &mut State,
    at: usize,
    known: Known,
) -> Result<(), MirrorError>
    requires kept { IsKept (W.view workspace.old) state.old None }
    requires within { at < length state.old.moved }
    requires made { IsMade (W.view workspace.old) known.text }
    ensures kept { OnOk result (IsKept (W.view workspace.new) state.new None) }
    ensures len { OnOk result (length state.new.moved ≡ length state.old.moved) }
{
    let name = state.moved.as_slice()[at].name;
    state.moved.set(at, Moved { name, known });
    workspace.save(state)?;
    Ok(())
}

// Reads a file that was moved away, and makes its text one of the journal where it is new. Whether it was quiet.
fn look_at<W: Workspace>(
    workspace: &mut W,
    state: &mut State,
    at: usize,
) -> Result<bool, MirrorError>
    requires kept { IsKept (W.view workspace.old) state.old None }
    requires within { at < length state.old.moved }
    ensures kept { OnOk result (IsKept (W.view workspace.new) state.new None) }
    ensures len { OnOk result (length state.new.moved ≡ length state.old.moved) }
    ensures busy { result ≡ Ok false → FoundBusy (W.view workspace.new) }
{
    let moved = &state.moved.as_slice()[at];
    let name = moved.name;
    let digest = moved.known.text.digest;
    let source = Source::Away(name);
    let look = workspace.read(source)?;
    match look {
        Look::Text(text) => {
            if !text.is(&digest) {
                let taken = take_in(workspace, state, source, text)?;
                rewatch(workspace, state, at, taken)?;
            }
            Ok(true)
        }
        Look::Busy => Ok(false),
        Look::Absent | Look::NotText | Look::Empty | Look::LeftEmpty => Ok(true),
    }
}

/// Reads each file that was moved away. Whether all were quiet: where one wasn't, NOTE isn't read, since a text that an
/// editor wrote to both would come twice.
pub(crate) fn look_back<W: Workspace>(
    workspace: &mut W,
    state: &mut State,
) -> Result<bool, MirrorError>
    requires { IsKept (W.view workspace.old) state.old None }
    ensures kept { OnOk result (IsKept (W.view workspace.new) state.new None) }
    ensures busy { result ≡ Ok false → FoundBusy (W.view workspace.new) }
{
    for at in 0..state.moved.len() {
        let is_quiet = look_at(workspace, state, at)?;
        if !is_quiet {
            return Ok(false);
        }
    }
    Ok(true)
}

// Removes a file that was moved away, and no longer watches it.
fn remove<W: Workspace>(
    workspace: &mut W,
    state: &mut State,
    at: usize,
    name: Name,
    known: &TextAt,
) -> Result<(), MirrorError>
    requires kept { IsKept (W.view workspace.old) state.old None }
    requires at { (m : Moved) × (slice_get state.old.moved at ≡ Some m) × (m.name ≡ name) }
    requires within { at < length state.old.moved }
    requires read { CanRemove (W.view workspace.old) name known.now }
    ensures { OnOk result (IsKept (W.view workspace.new) state.new None) }
{
    workspace.remove_moved(name, known)?;
    let _moved = state.moved.remove(at);
    workspace.save(state)?;
    Ok(())
}

// Removes a file that was moved away and has no text, or isn't there.
fn remove_empty<W: Workspace>(
    workspace: &mut W,
    state: &mut State,
    at: usize,
    name: Name,
) -> Result<(), MirrorError>
    requires kept { IsKept (W.view workspace.old) state.old None }
    requires at { (m : Moved) × (slice_get state.old.moved at ≡ Some m) × (m.name ≡ name) }
    requires within { at < length state.old.moved }
    requires read { (t : TextAt) → CanRemove (W.view workspace.old) name t }
    ensures { OnOk result (IsKept (W.view workspace.new) state.new None) }
{
    let known = TextAt::empty(state.texts.alloc());
    remove(workspace, state, at, name, &known)
}

/// Reads a file that was moved away once more, and removes it where its text is one of the journal's. For the caller to
/// say is which one: one that nobody wrote to for ten minutes, or that isn't there. It stays where it isn't quiet or
/// isn't UTF-8.
pub fn forget<W: Workspace>(
    workspace: &mut W,
    state: &mut State,
    at: usize,
) -> Result<(), MirrorError>
    requires kept { IsKept (W.view workspace.old) state.old None }
    requires within { at < length state.old.moved }
    ensures { OnOk result (IsKept (W.view workspace.new) state.new None) }
{
    let moved = &state.moved.as_slice()[at];
    let name = moved.name;
    let known = moved.known.text.copy(state.texts.alloc())?;
    let source = Source::Away(name);
    let look = workspace.read(source)?;
    match look {
        Look::Text(text) if text.is(&known.digest) => { remove(workspace, state, at, name, &known) }
        Look::Text(text) => {
            let known = take_in(workspace, state, source, text)?;
            remove(workspace, state, at, name, &known.text)?;
            Ok(())
        }
        Look::Absent => remove_empty(workspace, state, at, name),
        Look::Empty => remove_empty(workspace, state, at, name),
        Look::LeftEmpty => remove_empty(workspace, state, at, name),
        Look::Busy | Look::NotText => Ok(()),
    }
}

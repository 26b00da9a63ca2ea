//! A text that was read becomes one of the journal.

ghost use Rattle.std.specs.Prelude.{◌≡◌, ◌<◌, Some, None, IfOk, IfSome, OnOk, length, slice_get};
ghost use Rattle.tp_list.specs.Members.{In};
ghost use Rattle.tp_mirror.specs.declared.known.Known.{Known};
ghost use Rattle.tp_mirror.specs.declared.state.Moved.{Moved};
ghost use Rattle.tp_mirror.specs.declared.state.State.{State};
ghost use Rattle.tp_mirror.specs.declared.workspace.Source.{Source};
ghost use Rattle.tp_mirror.specs.declared.workspace.Source.TheVariants.{Note};
ghost use Rattle.tp_mirror.specs.Basing.{MayBase, MayBaseMoved};
ghost use Rattle.tp_mirror.specs.Mirroring.{IsKept, IsMade, IsRead, IsSavedOr, IsTaken, with_state};

use crate::base::{Base, base_at, base_on, find_nearest, last_of};
use crate::error::MirrorError;
use crate::generations::{begin_number, forget_second};
use crate::known::{Digest, Known, TextAt};
use crate::state::{Moved, Name, State};
use crate::workspace::{Source, Workspace};

// The place of the text among the last ones of the generations, where it is one of these.
fn find_last(texts: &[Known], text: Digest) -> Option<usize>
    ensures { IfSome result (λ at. (k : Known) × (slice_get texts.now at ≡ Some k) × (k.text.digest ≡ text)) }
{
    for at in 0..texts.len() {
        let known = &texts[at];
        if known.text.digest.is(&text) && last_of(texts, known.generation) == Some(at) {
            return Some(at);
        }
    }
    None
}

// A copy of the text, where it is the last one of a generation.
fn copy_of_last(state: &State, text: Digest) -> Result<Option<Known>, MirrorError>
    ensures { IfOk result (λ found. IfSome found (λ k. In k state.now.texts × (k.text.digest ≡ text))) }
{
    let texts = state.texts.as_slice();
    match find_last(texts, text) {
        None => Ok(None),
        Some(at) => {
            if at < texts.len() {
                let copy = texts[at].copy(state.texts.alloc())?;
                return Ok(Some(copy));
            }
            Ok(None)
        }
    }
}

// The place of the file that was moved away under the name.
fn find_moved(moved: &[Moved], name: Name) -> Option<usize>
    ensures at { IfSome result (λ at. (m : Moved) × (slice_get moved.now at ≡ Some m) × (m.name ≡ name)) }
    ensures within { IfSome result (λ at. at < length moved.now) }
{
    for at in 0..moved.len() {
        let file = &moved[at];
        if file.name.is(&name) {
            return Some(at);
        }
    }
    None
}

// On what a text of NOTE is made a change: on the last text of the generation that has the nearest one. Where NOTE was
// away, its editor may have begun with nothing, and then it is the empty text, if that is nearer.
fn base_of_note<W: Workspace>(
    workspace: &mut W,
    state: &State,
    text: Digest,
) -> Result<Base, MirrorError>
    ensures same { OnOk result (W.view workspace.new ≡ W.view workspace.old) }
    ensures base { IfOk result (λ base. MayBase W.is_far state.now Note text base.text) }
{
    let texts = state.texts.as_slice();
    let found = find_nearest(workspace, texts, None, text)?;
    let Some(near) = found else {
        return Err(MirrorError::NothingKnown);
    };
    if state.is_away {
        let empty = TextAt::empty(state.texts.alloc());
        let distance = workspace.distance(&empty, text)?;
        if distance < near.distance {
            return Ok(Base {
                generation: None,
                text: empty,
            });
        }
    }
    base_at(state.texts.alloc(), workspace, texts, None, near, text)
}

// On what a text of a file that was moved away is made a change: on the one that was read there last. A text of an earlier
// generation comes before it where that is nearer than it and all of its own generation: whoever wrote the file had loaded that.
fn base_of_moved<W: Workspace>(
    workspace: &mut W,
    state: &State,
    at: usize,
    text: Digest,
) -> Result<Base, MirrorError>
    requires { at < length state.now.moved }
    ensures same { OnOk result (W.view workspace.new ≡ W.view workspace.old) }
    ensures base { IfOk result (λ base. (m : Moved) × (slice_get state.now.moved at ≡ Some m)
        × MayBaseMoved W.is_far state.now.texts m.known text base.text) }
{
    let texts = state.texts.as_slice();
    let known = &state.moved.as_slice()[at].known;
    let own = Some(known.generation);
    let distance = workspace.distance(&known.text, text)?;
    let found = find_nearest(workspace, texts, own, text)?;
    let Some(near) = found else {
        return base_on(state.texts.alloc(), texts, known);
    };
    if near.generation == known.generation {
        return base_on(state.texts.alloc(), texts, known);
    }
    if near.distance < distance {
        return base_at(state.texts.alloc(), workspace, texts, own, near, text);
    }
    base_on(state.texts.alloc(), texts, known)
}

// On what a text that was read is made a change.
fn choose_base<W: Workspace>(
    workspace: &mut W,
    state: &State,
    source: Source,
    text: Digest,
) -> Result<Base, MirrorError>
    ensures same { OnOk result (W.view workspace.new ≡ W.view workspace.old) }
    ensures base { IfOk result (λ base. MayBase W.is_far state.now source text base.text) }
{
    match source {
        Source::Note => base_of_note(workspace, state, text),
        Source::Away(name) => match find_moved(state.moved.as_slice(), name) {
            Some(at) => base_of_moved(workspace, state, at, text),
            None => Err(MirrorError::NothingKnown),
        },
    }
}

// Whoever makes a change on the text is named by the state file, before the change is made.
fn name_author<W: Workspace>(
    workspace: &mut W,
    state: &mut State,
    base: &TextAt,
) -> Result<(), MirrorError>
    requires kept { IsKept (W.view workspace.old) state.old None }
    ensures kept { OnOk result (IsKept (W.view workspace.new) state.new None) }
    ensures may { OnOk result (W.may_make state.new.author base.now) }
    ensures others { OnOk result (state.new ≡ record state.old { author = state.new.author }) }
    ensures saved { OnOk result (IsSavedOr (W.view workspace.old) state.new (W.view workspace.new)) }
{
    let author = workspace.author_on(base, &state.author)?;
    if !author.is(&state.author) {
        state.author = author;
        workspace.save(state)?;
    }
    Ok(())
}

// The number of the generation: this one, or one that begins.
fn number_of(state: &mut State, generation: Option<u64>) -> Result<u64, MirrorError>
    ensures { OnOk result (state.new ≡ record state.old { begun = state.new.begun }) }
{
    match generation {
        Some(number) => Ok(number),
        None => begin_number(state),
    }
}

/// Remembers the text of a change that was made, in its generation, and names the next change. Of a generation with as many
/// texts as are known at most the second one is forgotten.
pub(crate) fn remember<W: Workspace>(
    workspace: &mut W,
    state: &mut State,
    generation: Option<u64>,
    made: TextAt,
) -> Result<Known, MirrorError>
    requires kept { IsKept (W.view workspace.old) state.old (Some made) }
    requires made { IsMade (W.view workspace.old) made }
    ensures kept { OnOk result (IsKept (W.view workspace.new) state.new None) }
    ensures known { IfOk result (λ known. known.text ≡ made) }
    ensures moved { OnOk result (state.new.moved ≡ state.old.moved) }
    ensures saved { OnOk result (W.view workspace.new ≡ with_state (W.view workspace.old) state.new) }
{
    let next = state.author.next()?;
    let number = number_of(state, generation)?;
    forget_second(state, number);
    let known = Known {
        generation: number,
        text: made,
    };
    let copy = known.copy(state.texts.alloc())?;
    state.texts.push(known)?;
    state.author = next;
    workspace.save(state)?;
    Ok(copy)
}

// Makes the text a change on its base, and remembers it.
fn make_change<W: Workspace>(
    workspace: &mut W,
    state: &mut State,
    source: Source,
    base: &Base,
    text: Digest,
) -> Result<Known, MirrorError>
    requires kept { IsKept (W.view workspace.old) state.old None }
    requires read { IsRead (W.view workspace.old) source text }
    requires base { MayBase W.is_far state.old source text base.now.text }
    ensures taken { IfOk result (λ known. IsTaken (W.view workspace.new) state.new source text known) }
    ensures moved { OnOk result (state.new.moved ≡ state.old.moved) }
{
    name_author(workspace, state, &base.text)?;
    let made = workspace.make(&base.text, text, &state.author)?;
    let known = remember(workspace, state, base.generation, made)?;
    Ok(known)
}

/// Makes a text that was read one of the journal, where it isn't known as the last one of a generation.
pub(crate) fn take_in<W: Workspace>(
    workspace: &mut W,
    state: &mut State,
    source: Source,
    text: Digest,
) -> Result<Known, MirrorError>
    requires kept { IsKept (W.view workspace.old) state.old None }
    requires read { IsRead (W.view workspace.old) source text }
    ensures taken { IfOk result (λ known. IsTaken (W.view workspace.new) state.new source text known) }
    ensures moved { OnOk result (state.new.moved ≡ state.old.moved) }
{
    if let Some(known) = copy_of_last(state, text)? {
        return Ok(known);
    }
    let base = choose_base(workspace, state, source, text)?;
    let known = make_change(workspace, state, source, &base, text)?;
    Ok(known)
}

//! On which text a text that was read is made a change.

ghost use Rattle.std.specs.Prelude.{◌≡◌, ◌⊎◌, ◌↔◌, ◌≤◌, ◌<◌, length, true, Some, None, IfOk, IfSome, IsTrue, OnOk};
ghost use Rattle.tp_list.specs.Members.{In};
ghost use Rattle.tp_mirror.specs.declared.known.Known.{Known};
ghost use Rattle.tp_mirror.specs.Basing.{Counts, IsBaseAt, IsLastAt, IsNearestAt};

use crate::error::MirrorError;
use crate::known::{Digest, Known, TextAt};
use crate::workspace::Workspace;
use std::alloc::Global;

/// A text, by its place among those that are known, and how far it is from the one that was read.
#[derive(Clone, Copy)]
pub(crate) struct Nearest {
    /// Its place.
    pub(crate) at: usize,
    /// Its generation.
    pub(crate) generation: u64,
    /// How many characters differ.
    pub(crate) distance: u64,
}

/// What a text that was read is made a change on.
#[derive(Drop)]
pub(crate) struct Base {
    /// The generation to which the text will belong. `None` where it begins one.
    pub(crate) generation: Option<u64>,
    /// The text.
    pub(crate) text: TextAt,
}

/// The place of the last text of a generation.
pub(crate) fn last_of(texts: &[Known], generation: u64) -> Option<usize>
    ensures found { IfSome result (λ at. IsLastAt texts.now generation at) }
    ensures within { IfSome result (λ at. at < length texts.now) }
    ensures none { result ≡ None → (k : Known) → In k texts.now → k.generation ≡ generation → ⊥ }
{
    let mut last: Option<usize> = None;
    for at in 0..texts.len() {
        let known = &texts[at];
        if known.generation == generation {
            last = Some(at);
        }
    }
    last
}

// Whether a text comes before another one that is as far: one of the file's own generation does, and then the newer
// one.
fn comes_first(a: Nearest, b: Nearest, own: Option<u64>) -> bool {
    if own == Some(a.generation) {
        return true;
    }
    own != Some(b.generation) && a.generation >= b.generation
}

// The nearer of what was found and the next one.
fn nearer(best: Option<Nearest>, next: Nearest, own: Option<u64>) -> Nearest
    ensures one { (result ≡ next) ⊎ (best ≡ Some result) }
    ensures next { result.distance ≤ next.distance }
    ensures best { IfSome best (λ b. result.distance ≤ b.distance) }
{
    match best {
        None => next,
        Some(best) => {
            if next.distance < best.distance {
                return next;
            }
            if next.distance == best.distance && comes_first(next, best, own) {
                return next;
            }
            best
        }
    }
}

// Whether a text of the generation counts: of a file that was moved away those don't that came later.
fn counts(own: Option<u64>, generation: u64) -> bool
    ensures { IsTrue result ↔ Counts own generation }
{
    match own {
        None => true,
        Some(own) => generation <= own,
    }
}

/// The text that is nearest to the one that was read. Of several, one of the generation `own`, and then the newest.
/// Where `own` is given, those of later generations don't count. One measure of each that does.
pub(crate) fn find_nearest<W: Workspace>(
    workspace: &mut W,
    texts: &[Known],
    own: Option<u64>,
    text: Digest,
) -> Result<Option<Nearest>, MirrorError>
    ensures same { OnOk result (W.view workspace.new ≡ W.view workspace.old) }
    ensures nearest { IfOk result (λ found. IfSome found (λ n. IsNearestAt W.is_far own texts.now text n)) }
    ensures none { IfOk result (λ found. found ≡ None → (k : Known) → In k texts.now → Counts own k.generation → ⊥) }
{
    let mut best: Option<Nearest> = None;
    for at in 0..texts.len() {
        let known = &texts[at];
        if !counts(own, known.generation) {
            continue;
        }
        let distance = workspace.distance(&known.text, text)?;
        let next = Nearest {
            at,
            generation: known.generation,
            distance,
        };
        best = Some(nearer(best, next, own));
    }
    Ok(best)
}

/// The last text of the generation that has the nearest one. It takes memory for its heads.
pub(crate) fn base_at<W: Workspace>(
    alloc: Global,
    _workspace: &W,
    texts: &[Known],
    _own: Option<u64>,
    near: Nearest,
    _text: Digest,
) -> Result<Base, MirrorError>
    requires { IsNearestAt W.is_far _own texts.now _text near }
    ensures { IfOk result (λ base. IsBaseAt W.is_far _own texts.now _text near.distance near.generation base.text) }
{
    match last_of(texts, near.generation) {
        None => Err(MirrorError::NothingKnown),
        Some(at) => {
            if at < texts.len() {
                let text = texts[at].text.copy(alloc)?;
                return Ok(Base {
                    generation: Some(near.generation),
                    text,
                });
            }
            Err(MirrorError::NothingKnown)
        }
    }
}

// Whether the text is the last one of its generation.
fn is_last(texts: &[Known], known: &Known) -> bool {
    match last_of(texts, known.generation) {
        Some(at) if at < texts.len() => {
            texts[at].text.heads.as_slice() == known.text.heads.as_slice()
        }
        _ => false,
    }
}

/// The text itself. What is made on it belongs to its generation where it is the last one there, and else begins one. It
/// takes memory for its heads.
pub(crate) fn base_on(alloc: Global, texts: &[Known], known: &Known) -> Result<Base, MirrorError>
    ensures { IfOk result (λ base. base.text ≡ known.now.text) }
{
    let generation = if is_last(texts, known) {
        Some(known.generation)
    } else {
        None
    };
    Ok(Base {
        generation,
        text: known.text.copy(alloc)?,
    })
}

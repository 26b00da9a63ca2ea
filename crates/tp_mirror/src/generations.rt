//! Generations of texts.

ghost use Rattle.std.specs.Prelude.{◌≡◌, ◌==◌, ◌+◌, ◌<◌, count_by, filter, length, IfOk, IfSome, OnOk};
ghost use Rattle.std.specs.List.{list_any};
ghost use Rattle.tp_mirror.specs.declared.known.Known.{Known};
ghost use Rattle.tp_mirror.specs.Generations.{Begins, ForgetsOneOf, IsOf, stays_known, needed_texts};

use crate::error::MirrorError;
use crate::known::{Known, TextAt};
use crate::state::{Moved, State};

/// How many generations are known at least: the newest. Those of files that were moved away are known too.
pub const GENERATIONS: u64 = 8;

/// How many texts of a generation are known at most: the first one, which NOTE was given, and the newest.
pub const TEXTS: usize = 16;

// The place of the next text of the generation.
#[tactic(auto, using(crate::proofs::Places::is_of))]
fn next_of(texts: &[Known], generation: u64, from: usize) -> Option<usize>
    ensures within { IfSome result (λ at. at < length texts.now) }
    ensures of { IfSome result (λ at. IsOf texts.now generation at) }
{
    for at in from..texts.len() {
        let known = &texts[at];
        if known.generation == generation {
            return Some(at);
        }
    }
    None
}

// How many texts are of the generation.
fn count_of(texts: &[Known], generation: u64) -> usize
    ensures { result ≡ count_by (λ k. k.generation == generation) texts.now }
{
    texts.iter().filter(|k| k.generation == generation).count()
}

// The place of the second text of the generation, where it has as many as are known at most.
fn second_if_full(texts: &[Known], generation: u64) -> Option<usize>
    ensures within { IfSome result (λ at. at < length texts.now) }
    ensures of { IfSome result (λ at. IsOf texts.now generation at) }
{
    if count_of(texts, generation) < TEXTS {
        return None;
    }
    match next_of(texts, generation, 0) {
        None => None,
        Some(first) => next_of(texts, generation, first + 1),
    }
}

// Whether a file that was moved away is of the generation.
fn has_generation(moved: &[Moved], number: u64) -> bool
    ensures { result ≡ list_any (λ m. m.known.generation == number) moved.now }
{
    moved.iter().any(|m| m.known.generation == number)
}

/// Whether a text stays known, where this many generations were begun. One pass over the files that were moved away.
pub(crate) fn is_needed(begun: u64, moved: &[Moved], known: &Known) -> bool
    ensures { result ≡ stays_known begun moved.now known.now }
{
    let age = begun.saturating_sub(known.generation);
    if age < GENERATIONS {
        return true;
    }
    has_generation(moved, known.generation)
}

/// Forgets the texts that aren't needed, where this many generations were begun. One pass over the files that were
/// moved away for each text.
pub(crate) fn keep_needed(texts: &mut Vec<Known>, begun: u64, moved: &[Moved])
    ensures { texts.new.items ≡ filter (stays_known begun moved.now) texts.old.items }
{
    texts.retain(|k| is_needed(begun, moved, k));
}

/// The number of a generation that begins. Refused as `Limit` past 64 bits.
pub(crate) fn begin_number(state: &mut State) -> Result<u64, MirrorError>
    ensures others { OnOk result (state.new ≡ record state.old { begun = state.old.begun + 1 }) }
    ensures number { IfOk result (λ n. n ≡ state.old.begun) }
{
    let number = state.begun;
    match number.checked_add(1) {
        None => Err(MirrorError::Limit),
        Some(next) => {
            state.begun = next;
            Ok(number)
        }
    }
}

// Forgets the texts that aren't needed.
fn prune(state: &mut State)
    ensures { state.new ≡ record state.old { texts = needed_texts state.old } }
{
    let begun = state.begun;
    state.texts.forget_unneeded(begun, state.moved.as_slice());
}

/// A generation begins with the text, and texts that aren't needed are forgotten.
pub(crate) fn begin_generation(state: &mut State, text: TextAt) -> Result<(), MirrorError>
    ensures { OnOk result ((k : Known) × (k.text ≡ text) × (k.generation ≡ state.old.begun) × Begins state.old state.new k) }
{
    prune(state);
    let generation = begin_number(state)?;
    state.texts.push(Known { generation, text })?;
    Ok(())
}

/// Forgets the second text of the generation, where it has as many as are known at most. One pass over the texts.
pub(crate) fn forget_second(state: &mut State, generation: u64)
    ensures others { state.new ≡ record state.old { texts = state.new.texts } }
    ensures texts { ForgetsOneOf generation state.old.texts state.new.texts }
{
    match second_if_full(state.texts.as_slice(), generation) {
        None => {}
        Some(at) => {
            let _known = state.texts.remove(at);
        }
    }
}

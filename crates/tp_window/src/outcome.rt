//! What a request comes to, before it is shown.

ghost use Rattle.std.specs.Prelude.{◌≡◌, IfErr, IfOk};
ghost use Rattle.tp_window.specs.Outcomes.{HasShown, IsEffectOf, IsMadeBy, IsNewsSince};
ghost use Rattle.tp_window.specs.declared.error.WindowError.TheVariants as refusal;
ghost use Rattle.tp_window.specs.Refusing.{RefusesEffectOf, RefusesMadeBy, RefusesNewsSince};

use crate::error::WindowError;
use crate::memory::Memory;
use crate::news::News;
use crate::reading::heads_meant;
use crate::resuming::heads_resumed;
use crate::showing::made_on;
use crate::window::Edited;
use std::alloc::Global;
use tp_document::{Document, Effect};
use tp_opid::{Actor, Hash};
use tp_peer::PeerSequence;

/// A page that was cut off, as it goes on.
#[derive(Drop)]
pub struct Resumed {
    /// The heads that it had.
    pub heads: Vec<Hash>,
    /// The hash of the change that its actor made on them, if it made one.
    pub made: Option<Hash>,
}

/// What a request comes to.
#[derive(Drop)]
pub enum Outcome {
    /// The text now.
    Text(String),
    /// What an actor made on some heads.
    Made(Resumed),
    /// An edit, once it is kept.
    Edit(Edited),
    /// What is new.
    News(News),
    /// Some of the changes, in the order in which they were applied.
    Changes {
        /// The number of the first of them, from 0.
        from: usize,
        /// How many at most.
        most: usize,
    },
    /// What a change did.
    Effect(Effect),
}

/// What the actor made on the heads that are said so, where the text is the actor's digits.
pub(crate) fn made_by(
    alloc: Global,
    document: &Document<PeerSequence>,
    actor: &str,
    heads: &Option<Vec<String>>,
    count: Option<u64>,
) -> Result<Resumed, WindowError>
    ensures ok { IfOk result (IsMadeBy actor.now heads.now count document.now.applied) }
    ensures err { IfErr result (RefusesMadeBy actor.now heads.now count document.now.applied) }
{
    let heads = heads_resumed(alloc, document, heads, count)?;
    let actor = Actor::from_text(actor)?;
    let made = made_on(document, &actor, &heads);
    Ok(Resumed { heads, made })
}

/// What is new since the text at the heads that are said so.
pub(crate) fn news_since(
    alloc: Global,
    memory: &Memory,
    document: &Document<PeerSequence>,
    heads: &Option<Vec<String>>,
    on: Option<u64>,
) -> Result<News, WindowError>
    ensures ok { IfOk result (IsNewsSince memory.now heads.now on document.now.applied) }
    ensures err { IfErr result (RefusesNewsSince memory.now heads.now on document.now.applied) }
{
    let heads = heads_meant(alloc, memory, heads, on)?;
    match News::since(alloc, document, &heads) {
        Ok(news) => Ok(news),
        Err(error) => Err(WindowError::from(error)),
    }
}

/// What the change with these digits of its hash did.
pub(crate) fn effect_in(
    document: &Document<PeerSequence>,
    hash: &str,
) -> Result<Effect, WindowError>
    ensures ok { IfOk result (IsEffectOf hash.now document.now.applied) }
    ensures err { IfErr result (RefusesEffectOf hash.now document.now.applied) }
{
    let hash = Hash::from_text(hash)?;
    match document.effect(&hash) {
        Ok(effect) => Ok(effect),
        Err(error) => Err(WindowError::from(error)),
    }
}

/// The heads that have the number of the answer which shows the outcome, where it has one. The only refusal is `OutOfMemory`.
pub(crate) fn heads_shown(
    alloc: Global,
    document: &Document<PeerSequence>,
    outcome: Outcome,
) -> Result<Option<Vec<Hash>>, WindowError>
    ensures ok { IfOk result (HasShown document.now.applied outcome) }
    ensures err { IfErr result (λ e. e ≡ refusal.OutOfMemory) }
{
    match outcome {
        Outcome::Text(_) => Ok(Some(Vec::from_slice(alloc, document.heads())?)),
        Outcome::Made(resumed) => Ok(Some(resumed.heads)),
        Outcome::Edit(edited) => Ok(Some(edited.news.heads)),
        Outcome::News(news) => Ok(Some(news.heads)),
        _ => Ok(None),
    }
}

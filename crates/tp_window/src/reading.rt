//! How a request is read, and what its parts are.

ghost use Rattle.std.specs.Prelude.{◌≡◌, ◌⊎◌, Any, List, IfOk, IfErr, IsOkUnless};
ghost use Rattle.tp_opid.specs.declared.hash.Hash.{Hash as HashOf};
ghost use Rattle.tp_window.specs.Numbers.{HadHeads};
ghost use Rattle.tp_window.specs.Requests.{AreTypedSplices, RefusesMeaning, SpellHashes, SpellsNoHash, MeansHeads};
ghost use Rattle.tp_window.specs.declared.error.WindowError.TheVariants as refusal;

use crate::error::WindowError;
use crate::memory::Memory;
use crate::request::{Request, TypedSplice};
use serde_json::error::Category;
use std::alloc::Global;
use tp_edit::Splice;
use tp_opid::Hash;

/// The hashes that have these digits, in the order of the texts. A text that isn't 64 hexadecimal digits is refused as
/// `BadRequest`; the only other refusal is `OutOfMemory`.
pub(crate) fn hashes_of(alloc: Global, texts: &[String]) -> Result<Vec<Hash>, WindowError>
    ensures ok { IfOk result (λ hashes. SpellHashes texts.now hashes.items) }
    ensures err { IfErr result (λ e. (e ≡ refusal.OutOfMemory)
        ⊎ ((e ≡ refusal.BadRequest) × Any SpellsNoHash texts.now)) }
{
    let mut hashes = Vec::with_capacity(alloc, texts.len())?;
    for text in texts {
        hashes.push(Hash::from_text(text.as_str())?)?;
    }
    Ok(hashes)
}

// The heads of the answer with the number.
fn heads_under(alloc: Global, memory: &Memory, number: u64) -> Result<Vec<Hash>, WindowError>
    ensures ok { IfOk result (λ hashes. HadHeads memory.now number hashes.items) }
    ensures err { IfErr result (λ e. (e ≡ refusal.OutOfMemory)
        ⊎ ((e ≡ refusal.Forgotten) × ((H : List HashOf) → HadHeads memory.now number H → ⊥))) }
{
    match memory.heads(number) {
        Some(heads) => Ok(Vec::from_slice(alloc, heads)?),
        None => Err(WindowError::Forgotten),
    }
}

/// The heads that a request means: those that the texts spell, or those of the answer with the number. Where both are said,
/// or neither, it is refused as `BadRequest`, and so are texts that spell none; a number that no answer had, or whose heads are
/// forgotten, as `Forgotten`. The only other refusal is `OutOfMemory`.
pub(crate) fn heads_meant(
    alloc: Global,
    memory: &Memory,
    heads: &Option<Vec<String>>,
    on: Option<u64>,
) -> Result<Vec<Hash>, WindowError>
    ensures ok { IfOk result (λ hashes. MeansHeads memory.now heads.now on hashes.items) }
    ensures err { IfErr result (RefusesMeaning memory.now heads.now on) }
{
    match heads {
        Some(texts) => match on {
            Some(_) => Err(WindowError::BadRequest),
            None => hashes_of(alloc, texts),
        },
        None => match on {
            Some(number) => heads_under(alloc, memory, number),
            None => Err(WindowError::BadRequest),
        },
    }
}

/// The splices of an edit, with their texts borrowed. The only refusal is `OutOfMemory`.
pub(crate) fn splices_of(
    alloc: Global,
    typed: &[TypedSplice],
) -> Result<Vec<Splice<'_>>, WindowError>
    ensures ok { IfOk result (λ splices. AreTypedSplices typed.now splices.items) }
    ensures err { IsOkUnless result refusal.OutOfMemory }
{
    let mut splices = Vec::with_capacity(alloc, typed.len())?;
    for splice in typed {
        splices.push(splice.splice())?;
    }
    Ok(splices)
}

/// The request that the JSON text is.
pub(crate) fn request_of(alloc: Global, text: &str) -> Result<Request, WindowError> {
    match serde_json::from_str(alloc, text) {
        Ok(request) => Ok(request),
        Err(error) => match error.classify() {
            Category::Memory => Err(WindowError::OutOfMemory),
            _ => Err(WindowError::BadRequest),
        },
    }
}

//! How the parts of an answer are written, and the answer.

ghost use Rattle.std.specs.Prelude.{◌≡◌, IfOk, IsOkUnless, drop, min, take};
ghost use Rattle.tp_window.specs.Answers.{AreShownChanges, IsShownChange, ShowDifferences, WriteHashes};
ghost use Rattle.tp_window.specs.Outcomes.{WritesAny};
ghost use Rattle.tp_window.specs.declared.error.WindowError.TheVariants as refusal;

use crate::answer::{Answer, ShownChange, ShownSplice};
use crate::error::WindowError;
use std::alloc::Global;
use tp_change::Change;
use tp_document::Difference;
use tp_opid::Hash;

// At most this many changes are in one answer to a page.
const MOST_CHANGES: usize = 1000;

/// The hexadecimal digits of the hashes, in lower case and in the order of the hashes. The only refusal is `OutOfMemory`.
pub(crate) fn texts_of(alloc: Global, hashes: &[Hash]) -> Result<Vec<String>, WindowError>
    ensures ok { IfOk result (λ texts. WriteHashes hashes.now texts.items) }
    ensures err { IsOkUnless result refusal.OutOfMemory }
{
    let mut texts = Vec::with_capacity(alloc, hashes.len())?;
    for hash in hashes {
        texts.push(hash.to_text(alloc)?)?;
    }
    Ok(texts)
}

/// The hexadecimal digits of the hash, in lower case, if there is one. The only refusal is `OutOfMemory`.
pub(crate) fn text_if_any(alloc: Global, hash: &Option<Hash>) -> Result<Option<String>, WindowError>
    ensures ok { IfOk result (WritesAny hash.now) }
    ensures err { IsOkUnless result refusal.OutOfMemory }
{
    match hash {
        Some(hash) => Ok(Some(hash.to_text(alloc)?)),
        None => Ok(None),
    }
}

/// The differences, with their texts borrowed. The only refusal is `OutOfMemory`.
pub(crate) fn shown_of(
    alloc: Global,
    differences: &[Difference],
) -> Result<Vec<ShownSplice<'_>>, WindowError>
    ensures ok { IfOk result (λ shown. ShowDifferences differences.now shown.items) }
    ensures err { IsOkUnless result refusal.OutOfMemory }
{
    let mut shown = Vec::with_capacity(alloc, differences.len())?;
    for difference in differences {
        shown.push(ShownSplice::of(difference))?;
    }
    Ok(shown)
}

// A change, but for its operations. The only refusal is `OutOfMemory`.
fn shown_change(alloc: Global, change: &Change) -> Result<ShownChange<'_>, WindowError>
    ensures ok { IfOk result (λ shown. IsShownChange change.now shown) }
    ensures err { IsOkUnless result refusal.OutOfMemory }
{
    Ok(ShownChange {
        hash: change.hash().to_text(alloc)?,
        actor: change.actor().to_text(alloc)?,
        time: change.time(),
        message: change.message(),
        deps: texts_of(alloc, change.deps())?,
    })
}

// At most `most` of the changes, and never more than `MOST_CHANGES`, from the one with the number on.
fn part_of(changes: &[Change], from: usize, most: usize) -> &[Change]
    ensures { result.now ≡ take (min most MOST_CHANGES) (drop from changes.now) }
{
    let rest = &changes[from.min(changes.len())..];
    &rest[..most.min(MOST_CHANGES).min(rest.len())]
}

/// At most `most` of the changes, and never more than `MOST_CHANGES`, from the one with the number on. The only refusal
/// is `OutOfMemory`.
pub(crate) fn shown_changes(
    alloc: Global,
    changes: &[Change],
    from: usize,
    most: usize,
) -> Result<Vec<ShownChange<'_>>, WindowError>
    ensures ok { IfOk result (λ shown.
        AreShownChanges (take (min most MOST_CHANGES) (drop from changes.now)) shown.items) }
    ensures err { IsOkUnless result refusal.OutOfMemory }
{
    let part = part_of(changes, from, most);
    let mut shown = Vec::with_capacity(alloc, part.len())?;
    for change in part {
        shown.push(shown_change(alloc, change)?)?;
    }
    Ok(shown)
}

/// The answer as a JSON text.
pub(crate) fn json_of(alloc: Global, answer: &Answer) -> Result<String, WindowError> {
    match serde_json::to_string(alloc, answer) {
        Ok(text) => Ok(text),
        Err(_) => Err(WindowError::OutOfMemory),
    }
}

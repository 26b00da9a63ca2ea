//! Which heads a page had that is resumed.

ghost use Rattle.std.specs.Prelude.{◌≡◌, ◌⊎◌, ◌<◌, IfErr, IfOk, length};
ghost use Rattle.tp_window.specs.Requests.{AreFirstHeads, RefusesResuming, ResumesHeads};
ghost use Rattle.tp_window.specs.declared.error.WindowError.TheVariants as refusal;

use crate::error::WindowError;
use crate::first::first_heads;
use crate::reading::hashes_of;
use std::alloc::Global;
use tp_document::Document;
use tp_opid::Hash;
use tp_peer::PeerSequence;

// The heads of the first changes of the document, as many as said.
fn heads_at(
    alloc: Global,
    document: &Document<PeerSequence>,
    count: u64,
) -> Result<Vec<Hash>, WindowError>
    ensures ok { IfOk result (λ hashes. AreFirstHeads document.now.applied count hashes.items) }
    ensures err { IfErr result (λ e. (e ≡ refusal.OutOfMemory)
        ⊎ ((e ≡ refusal.Forgotten) × (length document.now.applied < count))) }
{
    match first_heads(alloc, document, count)? {
        Some(heads) => Ok(heads),
        None => Err(WindowError::Forgotten),
    }
}

/// The heads that a page had which is resumed: those that the texts spell, or those of the first changes of the document, as many
/// as said. Where both are said, or neither, it is refused as `BadRequest`, and so are texts that spell none; more changes than there
/// are as `Forgotten`. The only other refusal is `OutOfMemory`.
pub(crate) fn heads_resumed(
    alloc: Global,
    document: &Document<PeerSequence>,
    heads: &Option<Vec<String>>,
    count: Option<u64>,
) -> Result<Vec<Hash>, WindowError>
    ensures ok { IfOk result (λ hashes. ResumesHeads document.now.applied heads.now count hashes.items) }
    ensures err { IfErr result (RefusesResuming document.now.applied heads.now count) }
{
    match heads {
        Some(texts) => match count {
            Some(_) => Err(WindowError::BadRequest),
            None => hashes_of(alloc, texts),
        },
        None => match count {
            Some(number) => heads_at(alloc, document, number),
            None => Err(WindowError::BadRequest),
        },
    }
}

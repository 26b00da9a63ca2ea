//! Earlier texts, and what changed between two texts.

ghost use Rattle.std.specs.Prelude.{◌≡◌, ◌≢◌, ◌⊎◌, List, length, IfOk, IfErr};
ghost use Rattle.std.specs.List.{flat_map};
ghost use Rattle.tp_document.specs.Common.{chars, past, IsTextOf};
ghost use Rattle.tp_snapshot.specs.Showing.{HasLength};
ghost use Rattle.tp_opid.specs.declared.hash.Hash.{Hash as HashOf};
ghost use Rattle.tp_c.specs.Earlier.{text_bytes, with_numbers, AnswersDifferences, IsFound, ReadsAt, ReadsBetween};
ghost use Rattle.tp_c.specs.Heads.{AreHeads, RefusesHeads};
ghost use Rattle.tp_c.specs.Reading.{OnlyAnswers};

use crate::answering::answer_with;
use crate::handle::Handle;
use crate::hashes::hashes_of;
use crate::splices::FlatSplice;
use crate::status::{DOC_OUT_OF_MEMORY, number_of_doc};
use std::alloc::{AllocError, Global};
use tp_document::{Difference, Document};
use tp_editor::Editor;
use tp_journal::OptionalJournal;
use tp_peer::PeerSequence;

// The text at the heads, as UTF-8, or the status of the refusal.
fn text_at(alloc: Global, document: &Document<PeerSequence>, heads: &[u8]) -> Result<Vec<u8>, u32>
    ensures ok { IfOk result (λ v. (H : List HashOf) × AreHeads document.now.applied heads.now H
        × IsTextOf (past document.now.applied H) (chars v.items)) }
    ensures err { IfErr result (λ status. RefusesHeads document.now.applied heads.now status) }
{
    let hashes = hashes_of(alloc, heads)?;
    match document.text_at(&hashes) {
        Ok(text) => Ok(text.into_bytes()),
        Err(error) => Err(number_of_doc(&error)),
    }
}

/// The answer is the text of the past of the heads as UTF-8; its length is written to `len`. The heads are hashes of
/// 32 bytes each, in any order, repeats allowed; none gives the empty text.
///
/// Answers 5 where a part of a hash is left over, 105 where one is of no applied change, and 109 where a growth was
/// refused; each leaves the answer.
#[unsafe(no_mangle)]
pub extern "C" fn tp_text_at(
    alloc: Global,
    handle: &mut Handle,
    heads: &[u8],
    len: &mut usize,
) -> u32
    ensures text { ReadsAt handle.old.editor.peer.applied heads.now
        (λ H. IsTextOf (past handle.old.editor.peer.applied H) (chars handle.new.editor.answer))
        result }
    ensures around { OnlyAnswers handle.old.editor result len.new handle.new.editor }
{
    let editor = handle.editor_mut();
    let bytes = text_at(alloc, editor.document(), heads);
    answer_with(editor, bytes, len)
}

// How many characters the text at the heads has, or the status of the refusal.
fn len_at(alloc: Global, document: &Document<PeerSequence>, heads: &[u8]) -> Result<usize, u32>
    ensures ok { IfOk result (λ n. (H : List HashOf) × AreHeads document.now.applied heads.now H
        × HasLength (past document.now.applied H) n) }
    ensures err { IfErr result (λ status. RefusesHeads document.now.applied heads.now status) }
{
    let hashes = hashes_of(alloc, heads)?;
    match document.len_at(&hashes) {
        Ok(count) => Ok(count),
        Err(error) => Err(number_of_doc(&error)),
    }
}

/// Writes how many characters the text of the past of the heads has to `count`. Refused as [`tp_text_at`]: nothing is
/// written then.
#[unsafe(no_mangle)]
pub extern "C" fn tp_len_at(
    alloc: Global,
    handle: &mut Handle,
    heads: &[u8],
    count: &mut usize,
) -> u32
    ensures count { ReadsAt handle.old.editor.peer.applied heads.now
        (λ H. HasLength (past handle.old.editor.peer.applied H) count.new) result }
    ensures refused { result ≢ 0 → count.new ≡ count.old }
    ensures same { handle.new.editor ≡ handle.old.editor }
{
    match len_at(alloc, handle.editor_mut().document(), heads) {
        Ok(found) => {
            *count = found;
            0
        }
        Err(status) => status,
    }
}

// The texts of the differences, one after another.
fn texts_of(alloc: Global, found: &[Difference]) -> Result<Vec<u8>, AllocError>
    ensures { IfOk result (λ v. v.items ≡ flat_map text_bytes found.now) }
{
    let mut texts = Vec::new(alloc);
    for difference in found {
        texts.extend_from_slice(difference.text.as_str().as_bytes())?;
    }
    Ok(texts)
}

// Writes the numbers of the differences to the places, as far as there are any.
fn write_numbers(found: &[Difference], places: &mut [FlatSplice])
    ensures { places.new ≡ with_numbers found.now places.old }
{
    let count = found.len().min(places.len());
    for i in 0..count {
        let difference = &found[i];
        places[i] = FlatSplice {
            at: difference.at,
            del: difference.del,
            len: difference.text.byte_len(),
        };
    }
}

// Differences, and their texts one after another.
#[derive(Drop)]
struct Found {
    differences: Vec<Difference>,
    texts: Vec<u8>,
}

// The differences with their texts; 109 where memory was refused.
fn with_texts(alloc: Global, differences: Vec<Difference>) -> Result<Found, u32>
    ensures ok { IfOk result (λ f. (f.differences ≡ differences)
        × (f.texts.items ≡ flat_map text_bytes differences.items)) }
    ensures err { IfErr result (λ status. status ≡ 109) }
{
    match texts_of(alloc, &differences) {
        Ok(texts) => Ok(Found { differences, texts }),
        Err(_) => Err(DOC_OUT_OF_MEMORY),
    }
}

// Writes what was found, and makes the texts the answer; or gives the status of the refusal.
fn answer_found(
    editor: &mut Editor<OptionalJournal>,
    found: Result<Found, u32>,
    places: &mut [FlatSplice],
    count: &mut usize,
    len: &mut usize,
) -> u32
    ensures done { IfOk found (λ f. (result ≡ 0) × (count.new ≡ length f.differences.items)
        × (places.new ≡ with_numbers f.differences.items places.old)
        × (editor.new ≡ record editor.old { answer = f.texts.items })) }
    ensures refused { IfErr found (λ status. (result ≡ status) × (count.new ≡ count.old)
        × (places.new ≡ places.old) × (editor.new ≡ editor.old)) }
    ensures len { len.new ≡ length editor.new.answer }
{
    let texts = match found {
        Ok(found) => {
            write_numbers(&found.differences, places);
            *count = found.differences.len();
            Ok(found.texts)
        }
        Err(status) => Err(status),
    };
    answer_with(editor, texts, len)
}

// The differences from the text at the heads to the text now, or the status of the refusal.
fn found_since(alloc: Global, document: &Document<PeerSequence>, heads: &[u8]) -> Result<Found, u32>
    ensures ok { IfOk result (λ f. (H : List HashOf) × AreHeads document.now.applied heads.now H
        × IsFound document.now.applied (past document.now.applied H) document.now.applied
        f.differences.items f.texts.items) }
    ensures err { IfErr result (λ status. RefusesHeads document.now.applied heads.now status) }
{
    let hashes = hashes_of(alloc, heads)?;
    match document.differences_since(&hashes) {
        Ok(differences) => with_texts(alloc, differences),
        Err(error) => Err(number_of_doc(&error)),
    }
}

// The differences from the text at some heads to that at others, or the status of the refusal.
fn found_between(
    alloc: Global,
    document: &Document<PeerSequence>,
    from: &[u8],
    to: &[u8],
) -> Result<Found, u32>
    ensures ok { IfOk result (λ f. (H : List HashOf) × AreHeads document.now.applied from.now H
        × ((K : List HashOf) × AreHeads document.now.applied to.now K
        × IsFound document.now.applied (past document.now.applied H) (past document.now.applied K)
        f.differences.items f.texts.items)) }
    ensures err { IfErr result (λ status. RefusesHeads document.now.applied from.now status
        ⊎ RefusesHeads document.now.applied to.now status) }
{
    let hashes = hashes_of(alloc, from)?;
    let others = hashes_of(alloc, to)?;
    match document.differences(&hashes, &others) {
        Ok(differences) => with_texts(alloc, differences),
        Err(error) => Err(number_of_doc(&error)),
    }
}

/// Writes the differences from the text of the past of the heads to the text now, rising, each a splice on the text
/// that those before it leave: as many as there are `places`, and how many there are to `count`. The answer is their
/// texts as UTF-8, one after another, of all of them; its length is written to `len`.
///
/// They are exact by elements: none touches an element that both texts show, and no two could be one. Where few changes
/// came since the heads the cost goes by what they change, and by how many elements are between.
///
/// Refused as [`tp_text_at`], which leaves the answer: nothing is written then.
#[unsafe(no_mangle)]
pub extern "C" fn tp_differences_since(
    alloc: Global,
    handle: &mut Handle,
    heads: &[u8],
    places: &mut [FlatSplice],
    count: &mut usize,
    len: &mut usize,
) -> u32
    ensures differences { ReadsAt handle.old.editor.peer.applied heads.now
        (λ H. AnswersDifferences handle.old.editor.peer.applied
        (past handle.old.editor.peer.applied H) handle.old.editor.peer.applied
        count.new (places.old, places.new) handle.new.editor.answer) result }
    ensures refused { result ≢ 0 → (count.new ≡ count.old) × (places.new ≡ places.old) }
    ensures around { OnlyAnswers handle.old.editor result len.new handle.new.editor }
{
    let editor = handle.editor_mut();
    let found = found_since(alloc, editor.document(), heads);
    answer_found(editor, found, places, count, len)
}

/// Writes the differences from the text of the past of some heads to that of others, as [`tp_differences_since`] does
/// and with its refusals.
#[unsafe(no_mangle)]
pub extern "C" fn tp_differences(
    alloc: Global,
    handle: &mut Handle,
    from: &[u8],
    to: &[u8],
    places: &mut [FlatSplice],
    count: &mut usize,
    len: &mut usize,
) -> u32
    ensures differences { ReadsBetween handle.old.editor.peer.applied from.now to.now
        (λ H K. AnswersDifferences handle.old.editor.peer.applied
        (past handle.old.editor.peer.applied H) (past handle.old.editor.peer.applied K)
        count.new (places.old, places.new) handle.new.editor.answer) result }
    ensures refused { result ≢ 0 → (count.new ≡ count.old) × (places.new ≡ places.old) }
    ensures around { OnlyAnswers handle.old.editor result len.new handle.new.editor }
{
    let editor = handle.editor_mut();
    let found = found_between(alloc, editor.document(), from, to);
    answer_found(editor, found, places, count, len)
}

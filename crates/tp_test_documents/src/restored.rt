//! What bytes load as, and what they recover to.

use crate::saved::journal_of;
use crate::world::World;
use std::alloc::Global;
use tp_document::Document;
use tp_recovery::{Recovered, Recovering, recover};
use tp_rga::Sequence;
use tp_store::{StoreError, load, save};
use tp_test_runner::{Fault, Judge, of_complements, of_cuts, refusal, text_of};

/// Answers for bytes by the document that they load as or recover to, whose text is kept as in the documents of the
/// world.
#[derive(Drop)]
struct Restorer<'a, S: Sequence> {
    world: &'a World<S>,
    is_journal: bool,
}

// A refusal by its name, with the offset or the cause that it has.
fn name_of_refusal(alloc: Global, error: StoreError) -> Result<String, Fault> {
    match error {
        StoreError::Damaged { at } => Ok(format!(in alloc; "Damaged at {at}")?),
        StoreError::Refused(cause) => Ok(format!(in alloc; "Refused {cause}")?),
        other => refusal(alloc, other),
    }
}

// The text of a document that was loaded, where it is saved as just the bytes.
fn saved_again<S: Sequence>(
    alloc: Global,
    document: &Document<S>,
    bytes: &[u8],
) -> Result<String, Fault> {
    match save(alloc, document) {
        Ok(saved) if saved.as_slice() == bytes => text_of(alloc, document),
        Ok(_) => Ok(String::from_str(alloc, "saved otherwise")?),
        Err(error) => name_of_refusal(alloc, error),
    }
}

fn load_outcome<S: Sequence>(alloc: Global, bytes: &[u8]) -> Result<String, Fault> {
    match load::<S>(alloc, bytes) {
        Ok(document) => saved_again(alloc, &document, bytes),
        Err(error) => name_of_refusal(alloc, error),
    }
}

// Whether the bytes that are kept are the document's journal.
fn is_kept<S: Sequence>(
    alloc: Global,
    recovered: &Recovered<S>,
    bytes: &[u8],
) -> Result<bool, Fault> {
    let journal = journal_of(alloc, &recovered.document)?;
    Ok(journal.len() as u64 == recovered.keep && bytes.starts_with(journal.as_slice()))
}

// The text of a document that was recovered and how many bytes are kept, where these are its journal.
fn kept_again<S: Sequence>(
    alloc: Global,
    recovered: &Recovered<S>,
    bytes: &[u8],
) -> Result<String, Fault> {
    if !is_kept(alloc, recovered, bytes)? {
        return Ok(String::from_str(alloc, "kept otherwise")?);
    }
    let mut out = text_of(alloc, &recovered.document)?;
    let keep = recovered.keep;
    write!(out, " keep {keep}")?;
    Ok(out)
}

// What was recovered of the bytes, or why it wasn't.
fn recovery_outcome<S: Sequence>(
    alloc: Global,
    recovered: Result<Recovered<S>, StoreError>,
    bytes: &[u8],
) -> Result<String, Fault> {
    match recovered {
        Ok(recovered) => kept_again(alloc, &recovered, bytes),
        Err(error) => name_of_refusal(alloc, error),
    }
}

// What was recovered of the bytes, where they come in pieces of `size` bytes, one at least.
fn recovered_by<S: Sequence>(alloc: Global, bytes: &[u8], size: usize) -> Result<String, Fault> {
    let mut recovering = Recovering::<S>::new(alloc);
    for piece in bytes.chunks(size.max(1)) {
        recovering.feed(piece);
    }
    recovery_outcome(alloc, recovering.finish(), bytes)
}

// What the bytes recover to, which is the same where they come in pieces.
fn recover_outcome<S: Sequence>(alloc: Global, bytes: &[u8]) -> Result<String, Fault> {
    let whole = recovery_outcome(alloc, recover::<S>(alloc, bytes), bytes)?;
    for size in [1, 7, 64] {
        let pieces = recovered_by::<S>(alloc, bytes, size)?;
        if pieces.as_str() != whole.as_str() {
            return Ok(format!(in alloc; "{pieces} in pieces of {size}")?);
        }
    }
    Ok(whole)
}

impl<S: Sequence> Judge for Restorer<'_, S> {
    fn judge(&self, bytes: &[u8]) -> Result<String, Fault> {
        if self.is_journal {
            recover_outcome::<S>(self.world.alloc, bytes)
        } else {
            load_outcome::<S>(self.world.alloc, bytes)
        }
    }
}

/// Makes a call `WORD BYTES` that changes nothing.
///
/// `load`, `recover`: the text that the bytes give, and how many bytes of a journal are kept; or the refusal. A journal is
/// recovered whole and in pieces of 1, 7 and 64 bytes.
/// `load_cuts`, `recover_cuts`: the same of each prefix; `load_complements`, `recover_complements`: with each byte
/// complemented. `len`: how many bytes there are.
pub fn look<S: Sequence>(world: &World<S>, word: &str, whole: &[u8]) -> Result<String, Fault> {
    let alloc = world.alloc;
    let restorer = Restorer {
        world,
        is_journal: word.starts_with("recover"),
    };
    match word {
        "load" | "recover" => restorer.judge(whole),
        "load_cuts" | "recover_cuts" => of_cuts(alloc, &restorer, whole),
        "load_complements" | "recover_complements" => of_complements(alloc, &restorer, whole),
        "len" => Ok(format!(in alloc; "{}", whole.len())?),
        _ => Err(Fault::Row("no such call")),
    }
}

//! Recovering from a journal whose bytes come in pieces.

ghost use Rattle.std.specs.Prelude.{◌≡◌, ◌⊎◌, ◌≤◌, ◌-◌, ℕ, List, [], ◌++◌, length, drop, vec_len, Some, IfOk, IfErr, OnOk, IsOkUnless};
ghost use Rattle.tp_layout.specs.declared.parts.ChangeParts.{ChangeParts};
ghost use Rattle.tp_opid.specs.declared.doc_id.DocId.{DocId as Id};
ghost use Rattle.tp_recovery.specs.Layout.{IsShortTail};
ghost use Rattle.tp_recovery.specs.Pieces.{RefusesFrom, BeginsWithJournal, HasRead, HasReadAll};
ghost use Rattle.tp_recovery.specs.Recovery.{HasTail, Recovers};
ghost use Rattle.tp_recovery.specs.Refusals.{IsJournalFault};
ghost use Rattle.tp_store.specs.declared.error.StoreError.TheVariants.{OutOfMemory};

use crate::layout::HEADER_BYTES;
use crate::reading::{next_four, read_header};
use crate::recovering::{Recovered, enter_next, history};
use std::alloc::{AllocError, Global};
use std::io;
use std::io::Write;
use std::marker::Model;
use tp_digest::Ahead;
use tp_document::Document;
use tp_ghost::GhostBytes;
use tp_rga::Sequence;
use tp_store::StoreError;

/// How far the bytes that came are read.
#[derive(Drop)]
pub(crate) enum Stage<S: Sequence> {
    /// The header isn't whole.
    Header,
    /// The document has the changes of all records that are whole. The tail is empty yet.
    Records(Recovered<S>),
    /// The bytes are refused, whatever comes after them, or memory was.
    Refused(StoreError),
}

/// Recovers the document of a journal whose bytes come in pieces of any sizes, as [`recover`](crate::recover) does from
/// all of them. It is a [`Write`] too, to which a reader can be copied.
///
/// Of the bytes it holds those of one record that isn't whole yet, and no others. A refusal is answered at the end.
///
/// Contracts see the bytes that came.
pub struct Recovering<S: Sequence> {
    alloc: Global,
    stage: Stage<S>,
    rest: Vec<u8>,
    came: GhostBytes,
}

impl<S: Sequence> Drop for Recovering<S> {
    fn drop(self) {
        let Recovering {
            alloc: _,
            stage: _,
            rest: _,
            came: _,
        } = self;
    }
}

impl<S: Sequence> Model for Recovering<S> {
    ghost use Rattle.std.specs.Prelude.{ℕ, List};

    ghost Value = { List ℕ };

    ghost use Rattle.tp_recovery.specs.Pieces.{HasReadAll};

    ghost view = { λ r. r.came.bytes };

    ghost invariant = { λ r. HasReadAll r.came.bytes r.stage r.rest.items };
}

// Enters the changes of the records at the prefix of the bytes, which come after those that are kept. Gives the short
// tail after them. The first of a journal is hashed alone: where it can't enter, none after it was hashed.
fn enter_records<'a, S: Sequence>(
    alloc: Global,
    recovered: &mut Recovered<S>,
    bytes: &'a [u8],
    _came: &GhostBytes,
) -> Result<&'a [u8], StoreError>
    requires { BeginsWithJournal _came.now.bytes recovered.old.document recovered.old.keep bytes.now }
    ensures ok { IfOk result (λ rest. IsShortTail rest.now
        × BeginsWithJournal _came.now.bytes recovered.new.document recovered.new.keep rest.now) }
    ensures rest { IfOk result
        (λ rest. (read : List ℕ) × (bytes.now ≡ read ++ rest.now)) }
    ensures err { IfErr result (RefusesFrom _came.now.bytes) }
{
    let mut rest = bytes;
    let mut ahead = Ahead::none();
    'records: loop {
        if ahead.is_used_up() && !recovered.document.changes().is_empty() {
            ahead = next_four(rest);
        }
        match enter_next(
            alloc,
            &mut recovered.document,
            rest,
            recovered.keep,
            &mut ahead,
        ) {
            Ok(Some(next)) => {
                history(&recovered.document);
                recovered.keep += (rest.len() - next.len()) as u64;
                rest = next;
            }
            Ok(None) => return Ok(rest),
            Err(error) => return Err(error),
        }
    }
}

// Reads the header at the start of all bytes that came, if it is whole, and the records after it. Gives what is left.
fn begin<'a, S: Sequence>(
    alloc: Global,
    stage: &mut Stage<S>,
    bytes: &'a [u8],
    came: &GhostBytes,
) -> Result<&'a [u8], StoreError>
    requires { HasRead came.now.bytes stage.old bytes.now × (stage.old ≡ Stage.Header) }
    ensures ok { IfOk result (λ rest. HasReadAll came.now.bytes stage.new rest.now) }
    ensures rest { IfOk result
        (λ rest. (read : List ℕ) × (bytes.now ≡ read ++ rest.now)) }
    ensures err { IfErr result (RefusesFrom came.now.bytes) }
{
    match read_header(bytes) {
        Ok((id, beyond)) => {
            let mut recovered = Recovered {
                document: Document::new(alloc, id),
                keep: HEADER_BYTES as u64,
                tail: Vec::new(alloc),
            };
            match enter_records(alloc, &mut recovered, beyond, came) {
                Ok(rest) => {
                    *stage = Stage::Records(recovered);
                    Ok(rest)
                }
                Err(error) => {
                    drop(recovered);
                    Err(error)
                }
            }
        }
        Err(StoreError::NoHeader) => Ok(bytes),
        Err(error) => Err(error),
    }
}

// Reads all that is whole of the bytes, which come after those that are read. Gives what is left.
fn read_on<'a, S: Sequence>(
    alloc: Global,
    stage: &mut Stage<S>,
    bytes: &'a [u8],
    came: &GhostBytes,
) -> Result<&'a [u8], StoreError>
    requires { HasRead came.now.bytes stage.old bytes.now }
    ensures ok { IfOk result (λ rest. HasReadAll came.now.bytes stage.new rest.now) }
    ensures rest { IfOk result
        (λ rest. (read : List ℕ) × (bytes.now ≡ read ++ rest.now)) }
    ensures err { IfErr result (RefusesFrom came.now.bytes) }
{
    match stage {
        Stage::Header => begin(alloc, stage, bytes, came),
        Stage::Records(recovered) => enter_records(alloc, recovered, bytes, came),
        Stage::Refused(error) => Err(*error),
    }
}

// Drops all bytes but the last ones.
fn keep_last(alloc: Global, bytes: &mut Vec<u8>, count: usize) -> Result<(), AllocError>
    requires { count ≤ vec_len bytes.old }
    ensures { OnOk result (bytes.new.items ≡ drop (vec_len bytes.old - count) bytes.old.items) }
{
    let read = bytes.len() - count;
    if read > 0 {
        *bytes = Vec::from_slice(alloc, &bytes[read..])?;
    }
    Ok(())
}

// Reads all that is whole of what is held, which comes after the bytes that are read, and keeps what is left.
fn read_held<S: Sequence>(
    alloc: Global,
    stage: &mut Stage<S>,
    held: &mut Vec<u8>,
    came: &GhostBytes,
) -> Result<(), StoreError>
    requires { HasRead came.now.bytes stage.old held.old.items }
    ensures ok { OnOk result (HasReadAll came.now.bytes stage.new held.new.items) }
    ensures err { IfErr result (RefusesFrom came.now.bytes) }
{
    match read_on(alloc, stage, held.as_slice(), came) {
        Ok(rest) => {
            let count = rest.len();
            match keep_last(alloc, held, count) {
                Ok(()) => Ok(()),
                Err(_) => Err(StoreError::OutOfMemory),
            }
        }
        Err(error) => Err(error),
    }
}

// Reads all that is whole of the piece, where nothing is held before it, and holds what is left.
fn read_piece<S: Sequence>(
    alloc: Global,
    stage: &mut Stage<S>,
    held: &mut Vec<u8>,
    piece: &[u8],
    came: &GhostBytes,
) -> Result<(), StoreError>
    requires reads { HasRead came.now.bytes stage.old piece.now }
    requires none { held.old.items ≡ [] }
    ensures ok { OnOk result (HasReadAll came.now.bytes stage.new held.new.items) }
    ensures err { IfErr result (RefusesFrom came.now.bytes) }
{
    match read_on(alloc, stage, piece, came) {
        Ok(rest) => match held.extend_from_slice(rest) {
            Ok(()) => Ok(()),
            Err(_) => Err(StoreError::OutOfMemory),
        },
        Err(error) => Err(error),
    }
}

// Takes a piece after the bytes before it; some of these are held.
fn take_piece<S: Sequence>(
    alloc: Global,
    stage: &mut Stage<S>,
    held: &mut Vec<u8>,
    piece: &[u8],
    _before: &GhostBytes,
    came: &GhostBytes,
) -> Result<(), StoreError>
    requires present { HasReadAll _before.now.bytes stage.old held.old.items }
    requires came { came.now.bytes ≡ _before.now.bytes ++ piece.now }
    ensures ok { OnOk result (HasReadAll came.now.bytes stage.new held.new.items) }
    ensures err { IfErr result (RefusesFrom came.now.bytes) }
{
    if held.is_empty() {
        return read_piece(alloc, stage, held, piece, came);
    }
    match held.extend_from_slice(piece) {
        Ok(()) => read_held(alloc, stage, held, came),
        Err(_) => Err(StoreError::OutOfMemory),
    }
}

impl<S: Sequence> Recovering<S> {
    /// No byte came. No memory.
    pub fn new(alloc: Global) -> Recovering<S>
        ensures { result ≡ [] }
    {
        Recovering {
            alloc,
            stage: Stage::Header,
            rest: Vec::new(alloc),
            came: GhostBytes::none(),
        }
    }

    /// Takes the next bytes of the journal. Each record is entered once its last byte is there. Bytes are copied only where
    /// a record comes in several pieces.
    pub fn feed(&mut self, piece: &[u8])
        ensures { self.new ≡ self.old ++ piece.now }
    {
        let came = GhostBytes::with(&self.came, piece);
        let taken = take_piece(
            self.alloc,
            &mut self.stage,
            &mut self.rest,
            piece,
            &self.came,
            &came,
        );
        if let Err(error) = taken {
            self.stage = Stage::Refused(error);
            self.rest.clear();
        }
        self.came = came;
    }

    /// The bytes that came, for contracts alone.
    pub fn content(&self) -> GhostBytes
        ensures { result.bytes ≡ self.now }
    {
        let none: &[u8] = &[];
        GhostBytes::with(&self.came, none)
    }

    /// The document of the journal whose bytes came, and how many of them are kept, as [`recover`](crate::recover) gives
    /// them or refuses. `OutOfMemory` also where memory was refused while they came.
    pub fn finish(self) -> Result<Recovered<S>, StoreError>
        ensures ok { IfOk result
            (λ r. Recovers self r.document.id r.document.applied r.keep) }
        ensures waiting { IfOk result (λ r. r.document.waiting ≡ []) }
        ensures tail { IfOk result (λ r. HasTail self r.keep r.tail.items) }
        ensures only { (id : Id) (C : List ChangeParts) (keep : ℕ) → Recovers self id C keep
            → IsOkUnless result OutOfMemory }
        ensures err { IfErr result (λ e. (e ≡ OutOfMemory) ⊎ IsJournalFault self e) }
    {
        let Recovering {
            alloc: _,
            stage,
            rest,
            came: _,
        } = self;
        match stage {
            Stage::Header => Err(StoreError::NoHeader),
            Stage::Records(recovered) => {
                let Recovered {
                    document,
                    keep,
                    tail: _,
                } = recovered;
                Ok(Recovered {
                    document,
                    keep,
                    tail: rest,
                })
            }
            Stage::Refused(error) => Err(error),
        }
    }
}

/// What is written is fed. It is never refused, and flushing does nothing.
impl<S: Sequence> Write for Recovering<S> {
    ghost contents = { λ r. Some r };

    fn write(&mut self, bytes: &[u8]) -> io::Result<usize> {
        self.feed(bytes);
        Ok(bytes.len())
    }

    fn flush(&mut self) -> io::Result<()> {
        Ok(())
    }
}

//! The text of a log.

ghost use Rattle.std.specs.Prelude.{◌≡◌, ◌⊎◌, ◌+◌, ◌<◌, ◌^◌, ℕ, List, [], ◌∷◌, ◌++◌, true, false, IfOk, IfErr, IfSome, OnOk, Option, IsTrue};
ghost use Rattle.std.specs.Io.KnownBytes.{Consumes, IsAtEnd, Keeps};
ghost use Rattle.std.specs.String.{string_bytes};
ghost use Rattle.tp_layout.specs.declared.parts.ChangeParts.{ChangeParts};
ghost use Rattle.tp_rga.specs.Shown.{visible_of};
ghost use Rattle.tp_edit.specs.Text.{chars_of};
ghost use Rattle.tp_textpeer.specs.declared.error.ShowFault.TheVariants.{Io};
ghost use Rattle.tp_textpeer.specs.ShowFault.{IsOutsideFault};
ghost use Rattle.tp_textpeer.specs.Show.{utf8_line, GivesLog, Shows, ShowsPart, RefusesLog};
ghost use Rattle.tp_textpeer.specs.Log.{IsAfterLog, IsLog, IsLogFault, FindsEnd, log_of};
ghost use Rattle.tp_textpeer.specs.Chain.{Remembers, AllBelowCounter};

use crate::chain::{Chain, admit};
use crate::entry::next_change;
use crate::error::{ShowError, ShowFault};
use crate::output::write_out;
use std::alloc::{AllocError, Global};
use std::io::{Read, Write};
use tp_edit::text;
use tp_rga::{PlainSequence, Sequence};

// Reads the next change and puts it in; answers whether there was one.
fn step<S: Sequence, R: Read>(
    alloc: Global,
    reader: &mut R,
    buffer: &mut Vec<u8>,
    chain: &mut Chain<S>,
    count: u64,
) -> Result<bool, ShowFault>
    requires below { AllBelowCounter (S.placed chain.old.sequence) chain.old.next }
    requires count { count + 1 < 2 ^ 64 }
    ensures below { IfOk result
        (λ _. AllBelowCounter (S.placed chain.new.sequence) chain.new.next) }
    ensures more { IfOk result
        (λ more. IsTrue more → (whole : Option (List ℕ)) (C : List ChangeParts)
        → IsAfterLog whole (R.remaining reader.old) count C
        → Remembers C (S.placed chain.old.sequence)
        (S.removals chain.old.sequence) chain.old.author chain.old.last chain.old.next
        → (c : ChangeParts) × IsAfterLog whole (R.remaining reader.new) (count + 1) (C ++ c ∷ [])
        × Remembers (C ++ c ∷ []) (S.placed chain.new.sequence)
        (S.removals chain.new.sequence) chain.new.author chain.new.last chain.new.next) }
    ensures ended { IfOk result
        (λ more. more ≡ false → FindsEnd (R.remaining reader.old) (R.remaining reader.new)
        × (chain.new ≡ chain.old)) }
    ensures err { IfErr result (λ f. IsOutsideFault f ⊎ ((whole : Option (List ℕ)) (C : List ChangeParts)
        → IsAfterLog whole (R.remaining reader.old) count C
        → Remembers C (S.placed chain.old.sequence)
        (S.removals chain.old.sequence) chain.old.author chain.old.last chain.old.next
        → IfSome whole (λ bytes. IsLogFault bytes count f))) }
{
    match next_change(alloc, reader, buffer) {
        Ok(Some(change)) => match admit(chain, count, &change) {
            Ok(()) => Ok(true),
            Err(fault) => Err(fault),
        },
        Ok(None) => Ok(false),
        Err(fault) => Err(fault),
    }
}

// The refusal of the change with this number.
fn at_change(change: u64, fault: ShowFault) -> ShowError
    ensures fault { result.fault ≡ fault }
    ensures outside { IsOutsideFault fault → result.change ≡ 0 }
    ensures inside { IsOutsideFault fault ⊎ (result.change ≡ change) }
{
    match fault {
        ShowFault::OutOfMemory | ShowFault::Io => ShowError { change: 0, fault },
        _ => ShowError { change, fault },
    }
}

// What is kept of the changes of a whole log.
fn read_log<S: Sequence, R: Read>(alloc: Global, reader: &mut R) -> Result<Chain<S>, ShowError>
    ensures ok { IfOk result (λ chain. (C : List ChangeParts) × IsLog (log_of C) C
        × Consumes (R.remaining reader.old) (R.remaining reader.new) (log_of C)
        × IsAtEnd (R.remaining reader.new)
        × Remembers C (S.placed chain.sequence)
        (S.removals chain.sequence) chain.author chain.last chain.next) }
    ensures err { IfErr result (RefusesLog (R.remaining reader.old)) }
{
    let mut chain = Chain {
        sequence: S::new(alloc),
        author: None,
        last: None,
        next: 1,
    };
    let mut buffer = Vec::new(alloc);
    for count in 0..u64::MAX {
        match step(alloc, reader, &mut buffer, &mut chain, count) {
            Ok(true) => {}
            Ok(false) => return Ok(chain),
            Err(fault) => return Err(at_change(count, fault)),
        }
    }
    Err(at_change(0, ShowFault::Io))
}

// The text of a sequence, and a newline.
fn line_of<S: Sequence>(alloc: Global, sequence: &S) -> Result<String, AllocError>
    ensures { IfOk result (λ text. string_bytes text
        ≡ utf8_line (chars_of (visible_of (S.removals sequence.now) (S.placed sequence.now)))) }
{
    let mut text = text(alloc, sequence)?;
    text.push('\n')?;
    Ok(text)
}

// The text of a log, and a newline.
fn text_of_log<S: Sequence, R: Read>(alloc: Global, reader: &mut R) -> Result<String, ShowError>
    ensures ok { IfOk result
        (λ text. (t : List ℕ) × GivesLog (R.remaining reader.old) (R.remaining reader.new) t
        × (string_bytes text ≡ utf8_line t)) }
    ensures err { IfErr result (RefusesLog (R.remaining reader.old)) }
{
    match read_log::<S, R>(alloc, reader) {
        Ok(chain) => match line_of(alloc, &chain.sequence) {
            Ok(text) => Ok(text),
            Err(_) => Err(at_change(0, ShowFault::OutOfMemory)),
        },
        Err(error) => Err(error),
    }
}

/// Writes the text of a log and a newline.
///
/// A log is changes one after another, each as a length of 4 bytes and the change's bytes, to the end of the reader.
/// All have the actor of the first; the first depends on nothing, and each other on just the change before it. An empty
/// log has the empty text. The output is begun when the whole log was accepted.
///
/// The refusal has the number of the change that it is at, counted from 0. For each change these are judged in
/// turn: its length and bytes (`Change`, with `Short` for a length of 0 and a length or a change that isn't whole, and
/// `Limit` for a length past 4,194,304), `NotChain`, `BadSeq`, `BadStart`, `BadReference`. `OutOfMemory` and `Io` (the
/// reader or the writer failed) say nothing of the log, and have the number 0. After `Io` the writer may hold a
/// beginning of the text.
///
/// The log is read once, change by change, and of each change only its elements are kept.
pub fn show<R: Read, W: Write>(
    alloc: Global,
    reader: &mut R,
    writer: &mut W,
) -> Result<(), ShowError>
    // What is shown is the text of the changes whose log the reader gave, to its end.
    ensures shown { OnOk result (Shows (R.remaining reader.old) (R.remaining reader.new)
        (W.contents writer.old) (W.contents writer.new)) }
    // What is refused isn't the log of any changes, and the refusal says why.
    ensures refused { IfErr result (RefusesLog (R.remaining reader.old)) }
    ensures only { IfSome (R.remaining reader.old)
        (λ bytes. (C : List ChangeParts) → IsLog bytes C → IfErr result (λ e. IsOutsideFault e.fault)) }
    // A refusal writes nothing, but for a beginning of the text where the reader gave a whole log and the writer failed.
    ensures nothing { IfErr result (λ e. Keeps (W.contents writer.old) (W.contents writer.new)
        ⊎ ((e.fault ≡ Io) × ShowsPart (R.remaining reader.old) (R.remaining reader.new)
        (W.contents writer.old) (W.contents writer.new))) }
{
    match text_of_log::<PlainSequence, R>(alloc, reader) {
        Ok(text) => match write_out(writer, text.as_str().as_bytes()) {
            Ok(()) => Ok(()),
            Err(_) => Err(at_change(0, ShowFault::Io)),
        },
        Err(error) => Err(error),
    }
}

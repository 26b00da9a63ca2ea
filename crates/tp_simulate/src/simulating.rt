//! A script run to its end.

ghost use Rattle.std.specs.Prelude.{◌≡◌, ◌⊎◌, ℕ, List, true, false, IfOk, IfErr, OnOk, IsTrue};
ghost use Rattle.std.specs.Io.KnownBytes.{Appends, Keeps};
ghost use Rattle.std.specs.String.{string_bytes};
ghost use Rattle.tp_opid.specs.declared.op_id.OpId.{OpId};
ghost use Rattle.tp_headline.specs.Reply.{EventReply as ReplyData};
ghost use Rattle.tp_headline.specs.World.{World as WorldData};
ghost use Rattle.tp_textpeer.specs.Output.{AppendsPart};
ghost use Rattle.tp_world.specs.Order.{IsOneList};
ghost use Rattle.tp_simulate.specs.declared.asked.Asked.{Asked as AskedData};
ghost use Rattle.tp_simulate.specs.declared.mark.Mark.{Mark as MarkData};
ghost use Rattle.tp_simulate.specs.declared.error.SimError.TheVariants as refusal;
ghost use Rattle.tp_simulate.specs.SimError.{IsOutsideError};
ghost use Rattle.tp_simulate.specs.Playing.{Carries};
ghost use Rattle.tp_simulate.specs.Script.{Prints, PrintsPart, StopsAtLine};
ghost use Rattle.tp_simulate.specs.Telling.{order_line as order_line_of, line_of_reply as marked_of};

use crate::asked::Asked;
use crate::error::{SimError, refusal_of_device};
use crate::parsing::asked_by;
use crate::playing::{Stage, carry_out};
use crate::telling::line_of_reply;
use std::alloc::{AllocError, Global};
use std::io::{BufRead, Write};
use tp_headline::WorldError;
use tp_list::array_len;
use tp_opid::{DocId, OpId};
use tp_peer::PeerError;
use tp_textpeer::write_out;
use tp_world::{Answer, PeerReply, Reply, World};

// The identifier of the document of a script.
const ID: DocId = DocId([0; 16]);

fn refuses_memory(reply: &PeerReply) -> bool {
    match reply {
        PeerReply::Refused(error) => matches!(error, PeerError::OutOfMemory),
        _ => false,
    }
}

// Whether memory was short for what was asked.
fn is_out_of_memory(reply: &Reply) -> bool {
    match reply {
        Reply::Refused(why) => matches!(why, WorldError::OutOfMemory),
        Reply::Answered(Answer::Alone(own)) => refuses_memory(own),
        _ => false,
    }
}

// Carries out what the line with the number asks for, and gives what is printed of it.
fn play_asked(stage: &mut Stage, asked: &Asked, number: u64) -> Result<String, SimError>
    ensures ok { IfOk result (λ printed. (reply : ReplyData)
        × Carries stage.old.world stage.old.marks.items asked.now reply
        stage.new.world stage.new.marks.items × (string_bytes printed ≡ marked_of asked.now reply)) }
    ensures err { IfErr result (λ e. IsOutsideError e ⊎ (e ≡ refusal.Line number)) }
{
    match carry_out(stage, asked) {
        Ok(Some(reply)) => {
            if is_out_of_memory(&reply) {
                return Err(SimError::OutOfMemory);
            }
            match line_of_reply(stage.alloc, asked, &reply) {
                Ok(printed) => Ok(printed),
                Err(_) => Err(SimError::OutOfMemory),
            }
        }
        Ok(None) => Err(SimError::Line(number)),
        Err(_) => Err(SimError::OutOfMemory),
    }
}

// Carries out the line with the number, and gives what is printed of it.
fn play_line(stage: &mut Stage, line: &[u8], number: u64) -> Result<String, SimError>
    ensures ok { IfOk result (λ printed. (a : AskedData) × (reply : ReplyData)
        × Carries stage.old.world stage.old.marks.items a reply
        stage.new.world stage.new.marks.items × (string_bytes printed ≡ marked_of a reply)) }
    ensures err { IfErr result (λ e. IsOutsideError e ⊎ (e ≡ refusal.Line number)) }
{
    let text = match str::from_utf8(line) {
        Ok(text) => text,
        Err(_) => return Err(SimError::Line(number)),
    };
    match asked_by(stage.alloc, text) {
        Ok(Some(asked)) => play_asked(stage, &asked, number),
        Ok(None) => Err(SimError::Line(number)),
        Err(_) => Err(SimError::OutOfMemory),
    }
}

// Replaces what the buffer holds by the next line, without its newline; answers whether there was one.
fn next_line<R: BufRead>(reader: &mut R, line: &mut Vec<u8>) -> Result<bool, SimError>
    ensures { IfErr result IsOutsideError }
{
    line.clear();
    match reader.read_until(b'\n', line) {
        Ok(0) => return Ok(false),
        Ok(_) => {}
        Err(error) => return Err(refusal_of_device(error)),
    }
    if matches!(line.last(), Some(&b'\n')) {
        let _newline = line.pop();
    }
    Ok(true)
}

// Writes what is printed of a line.
fn put<W: Write>(writer: &mut W, printed: &str) -> Result<(), SimError>
    ensures whole { OnOk result
        (Appends (W.contents writer.old) (W.contents writer.new) printed.now) }
    ensures part { AppendsPart (W.contents writer.old) (W.contents writer.new) printed.now }
    ensures err { IfErr result IsOutsideError }
{
    match write_out(writer, printed.as_bytes()) {
        Ok(()) => Ok(()),
        Err(error) => Err(refusal_of_device(error)),
    }
}

// Carries out the next line, which has the number, and writes what is printed of it; answers whether there was one.
fn step<R: BufRead, W: Write>(
    stage: &mut Stage,
    reader: &mut R,
    line: &mut Vec<u8>,
    writer: &mut W,
    number: u64,
) -> Result<bool, SimError>
    ensures more { IfOk result (λ more. IsTrue more → (a : AskedData) × (reply : ReplyData)
        × Carries stage.old.world stage.old.marks.items a reply
        stage.new.world stage.new.marks.items
        × Appends (W.contents writer.old) (W.contents writer.new) (marked_of a reply)) }
    ensures ended { IfOk result (λ more. more ≡ false → (stage.new ≡ stage.old)
        × Keeps (W.contents writer.old) (W.contents writer.new)) }
    // A refusal leaves what was written as it was, but for a beginning of what is printed of the line.
    ensures err { IfErr result (λ e. ((IsOutsideError e ⊎ (e ≡ refusal.Line number))
        × Keeps (W.contents writer.old) (W.contents writer.new))
        ⊎ (IsOutsideError e × ((a : AskedData) × (reply : ReplyData) × (w : WorldData) × (marks : List MarkData)
        × Carries stage.old.world stage.old.marks.items a reply w marks
        × AppendsPart (W.contents writer.old) (W.contents writer.new) (marked_of a reply)))) }
{
    match next_line(reader, line) {
        Ok(true) => {}
        Ok(false) => return Ok(false),
        Err(error) => return Err(error),
    }
    match play_line(stage, line.as_slice(), number) {
        Ok(printed) => match put(writer, printed.as_str()) {
            Ok(()) => Ok(true),
            Err(error) => Err(error),
        },
        Err(error) => Err(error),
    }
}

// The line of the one list of all elements.
fn order_line(alloc: Global, list: &[(OpId, char)]) -> Result<String, AllocError>
    ensures { IfOk result (λ l. string_bytes l ≡ order_line_of list.now) }
{
    let mut line = String::from_str(alloc, "order ")?;
    for pair in list {
        line.push(pair.1)?;
    }
    line.push('\n')?;
    Ok(line)
}

// Writes the one list of all elements.
fn finish<W: Write>(stage: &Stage, writer: &mut W) -> Result<(), SimError>
    ensures whole { OnOk result ((pairs : List (OpId × ℕ)) × IsOneList stage.now.world.made pairs
        × Appends (W.contents writer.old) (W.contents writer.new) (order_line_of pairs)) }
    ensures part { IfErr result (λ e. IsOutsideError e
        × (Keeps (W.contents writer.old) (W.contents writer.new)
        ⊎ ((pairs : List (OpId × ℕ)) × IsOneList stage.now.world.made pairs
        × AppendsPart (W.contents writer.old) (W.contents writer.new) (order_line_of pairs)))) }
{
    let list = match stage.world.order() {
        Ok(list) => list,
        Err(_) => return Err(SimError::OutOfMemory),
    };
    match order_line(stage.alloc, list.as_slice()) {
        Ok(line) => put(writer, line.as_str()),
        Err(_) => Err(SimError::OutOfMemory),
    }
}

/// Runs a script: each of its lines is an event of a world of peers, which begins with none, and after them `order` is
/// printed with the characters of the one list of all elements that were ever inserted. docs/FORMATS.md has the lines
/// and what is printed of each.
///
/// A line of another shape, and one that reads at a mark that isn't set, is refused as `Line` with its number, from 1.
/// `Io` and `OutOfMemory` say nothing of the script; where memory is short for an event the run ends. What was printed
/// before a refusal stays; after `Io` the writer may hold a beginning of the next line too.
///
/// The script is read once, line by line. A line costs what its event costs in the world, and a copy of its bytes.
pub fn simulate<R: BufRead, W: Write>(
    alloc: Global,
    reader: &mut R,
    writer: &mut W,
) -> Result<(), SimError>
    // What is printed of the lines are the replies of a world's own steps: one run, an event a line, and the
    // headline holds of it; and in the end its one list.
    ensures prints { OnOk result (Prints (W.contents writer.old) (W.contents writer.new)) }
    // Whatever the outcome, what is printed is a beginning of that.
    ensures part { PrintsPart (W.contents writer.old) (W.contents writer.new) }
    // At a line that is refused just the lines before it are printed.
    ensures line { (k : ℕ) → result ≡ Err (refusal.Line k)
        → StopsAtLine k (W.contents writer.old) (W.contents writer.new) }
{
    let _len = array_len(ID.0);
    let mut stage = Stage {
        alloc,
        world: World::new(alloc, ID),
        marks: Vec::new(alloc),
    };
    let mut line = Vec::new(alloc);
    for number in 1..u64::MAX {
        match step(&mut stage, reader, &mut line, writer, number) {
            Ok(true) => {}
            Ok(false) => return finish(&stage, writer),
            Err(error) => return Err(error),
        }
    }
    Err(SimError::Io)
}

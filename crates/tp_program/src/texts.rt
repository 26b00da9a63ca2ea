//! Texts that are given, and become texts of journals.

ghost use Rattle.std.specs.Prelude.{◌≡◌, [], IfOk, IfSome, None, OnErr, OnOk};
ghost use Rattle.std.specs.Str.{chars};
ghost use Rattle.std.specs.String.{string_bytes};
ghost use Rattle.tp_commands.specs.Reading.{lines_of_made};
ghost use Rattle.tp_disk.specs.DiskView.{ChangesFile};
ghost use Rattle.tp_disk.specs.Opening.{CutsFile, MayCutFile};
ghost use Rattle.tp_program.specs.Files.{IsGiven, OfGiven};
ghost use Rattle.tp_program.specs.Lines.{AreImportLines, AreUpdateLines};
ghost use Rattle.tp_report.specs.Names.{output_of_made};

use std::alloc::Global;
use std::io::Read;
use tp_commands::{
    CommandError, Metadata, UpdateError, begin, import, made_lines, text_in_file, update,
};
use tp_disk::{Disk, Opened, draw, draw_actor, generator};
use tp_opid::{Actor, DocId, Hash};
use tp_peer::PeerError;
use tp_report::Made;

/// The bytes of the file at a path, or of the standard input, which the path `-` names.
pub(crate) fn read_input<D: Disk + AllocGlobal, I: Read>(
    rt: &D,
    path: &str,
    input: &mut I,
) -> Result<Vec<u8>, CommandError>
    ensures { IfOk result (λ bytes. IsGiven (D.saw rt.now) path.now bytes.items) }
{
    if path != "-" {
        return rt.read(path);
    }
    let mut bytes = Vec::new(rt.alloc());
    input.read_to_end(&mut bytes)?;
    Ok(bytes)
}

/// Makes the text of the journal at a path that of a file: the text at the heads, where any are given, beside what came
/// since. The lines of the changes that were made.
pub(crate) fn update_text<D: Disk + AllocGlobal, I: Read>(
    rt: &D,
    file: &str,
    source: &str,
    since: &[Hash],
    input: &mut I,
    time: u64,
    message: &str,
    key: Option<[u8; 32]>,
    wait: u64,
    cut: &mut Option<u64>,
) -> Result<(String, Option<Made>), UpdateError>
    requires { cut.old ≡ None }
    ensures cuts { OnOk result (CutsFile (D.saw rt.now) file.now cut.new) }
    ensures may_cut { OnErr result
        (MayCutFile (D.saw rt.now) file.now cut.new) }
    ensures lines { IfOk result (λ p. OfGiven (D.saw rt.now) source.now
        (λ bytes. ChangesFile (D.saw rt.now) file.now
        (λ before after. AreUpdateLines key since.now (chars bytes) time (chars message.now) before after
        (string_bytes p.0)))) }
    ensures made { IfOk result
        (λ p. IfSome p.1 (λ made. string_bytes p.0 ≡ output_of_made made)) }
    ensures nothing { IfOk result (λ p. p.1 ≡ None → string_bytes p.0 ≡ lines_of_made []) }
{
    let bytes = read_input(rt, source, input)?;
    let text = text_in_file(&bytes)?;
    let actor = draw_actor(rt, key)?;
    let Opened {
        journal,
        recovered,
        cut: kept,
    } = rt.journal(file, wait)?;
    *cut = kept;
    let opened = (journal, Ok(recovered));
    let by = Metadata {
        actor,
        time,
        message,
    };
    let (mut journal, hashes) = update(rt.alloc(), opened, since, text, &by)?;
    rt.leave(file, &mut journal)?;
    made_texts(rt.alloc(), hashes)
}

/// Brings the text of a file into the journal at a path, which is begun as `new` does where there is none. The lines of the
/// changes that were made.
pub(crate) fn import_text<D: Disk + AllocGlobal, I: Read>(
    rt: &D,
    file: &str,
    source: &str,
    input: &mut I,
    time: u64,
    message: &str,
    key: Option<[u8; 32]>,
    wait: u64,
    cut: &mut Option<u64>,
) -> Result<(String, Option<Made>), UpdateError>
    requires { cut.old ≡ None }
    ensures cuts { OnOk result (CutsFile (D.saw rt.now) file.now cut.new) }
    ensures may_cut { OnErr result
        (MayCutFile (D.saw rt.now) file.now cut.new) }
    ensures lines { IfOk result (λ p. OfGiven (D.saw rt.now) source.now
        (λ bytes. ChangesFile (D.saw rt.now) file.now
        (λ before after. AreImportLines key (chars bytes) time (chars message.now) before after
        (string_bytes p.0)))) }
    ensures made { IfOk result
        (λ p. IfSome p.1 (λ made. string_bytes p.0 ≡ output_of_made made)) }
    ensures nothing { IfOk result (λ p. p.1 ≡ None → string_bytes p.0 ≡ lines_of_made []) }
{
    let bytes = read_input(rt, source, input)?;
    let text = text_in_file(&bytes)?;
    let mut generator = generator(rt, key)?;
    let Actor(drawn) = draw(&mut generator);
    let actor = draw(&mut generator);
    begin_where_none(rt, file, DocId(drawn), actor, wait)?;
    let Opened {
        journal,
        recovered,
        cut: kept,
    } = rt.journal(file, wait)?;
    *cut = kept;
    let opened = (journal, recovered);
    let (mut journal, hashes) = import(rt.alloc(), opened, actor, text, time, message)?;
    rt.leave(file, &mut journal)?;
    made_texts(rt.alloc(), hashes)
}

// The lines of the changes that were made, and these, where there are any.
#[tactic(auto, using(crate::proofs::NoteLaws::some_made, crate::proofs::NoteLaws::none_made))]
fn made_texts(alloc: Global, hashes: Vec<Hash>) -> Result<(String, Option<Made>), UpdateError>
    ensures lines { IfOk result (λ p. string_bytes p.0 ≡ lines_of_made hashes.items) }
    ensures made { IfOk result
        (λ p. IfSome p.1 (λ made. string_bytes p.0 ≡ output_of_made made)) }
    ensures nothing { IfOk result (λ p. p.1 ≡ None → string_bytes p.0 ≡ lines_of_made []) }
{
    let lines = made_lines(alloc, &hashes)?;
    if hashes.is_empty() {
        Ok((lines, None))
    } else {
        Ok((lines, Some(Made::Changes(hashes))))
    }
}

// Begins the journal at a path, where there is none.
fn begin_where_none<D: Disk + AllocGlobal>(
    rt: &D,
    file: &str,
    id: DocId,
    actor: Actor,
    wait: u64,
) -> Result<(), CommandError> {
    match begin(rt.alloc(), rt.make_journal(file, wait)?, id, actor) {
        Ok(mut journal) => rt.leave(file, &mut journal),
        Err(CommandError::Peer(PeerError::JournalNotEmpty)) => Ok(()),
        Err(error) => Err(error),
    }
}

//! Doing a job, and what is printed of it.

ghost use Rattle.std.specs.Prelude.{◌≡◌, ℕ, List, [], map, IfOk, IfErr, IfSome, Some, None, OnErr, OnOk};
ghost use Rattle.std.specs.Str.{chars};
ghost use Rattle.std.specs.String.{string_bytes};
ghost use Rattle.tp_simulate.specs.Script.{Prints};
ghost use Rattle.tp_commands.specs.Graph.{IsChangeGraph};
ghost use Rattle.tp_commands.specs.Diff.{IsDiff};
ghost use Rattle.tp_commands.specs.Reading.{AreHeadLines, IsCursorLine, IsTextPrinted};
ghost use Rattle.tp_commands.specs.Status.{IsStatus};
ghost use Rattle.tp_commands.specs.declared.status.Lock.{Lock};
ghost use Rattle.tp_program.specs.Files.{BeginsJournal, IsLoaded, IsRecoveryOutput, OfInserted, RescuesTo, SavesTo};
ghost use Rattle.tp_disk.specs.DiskView.{ChangesFile, OfFile};
ghost use Rattle.tp_disk.specs.Opening.{CutsFile, MayCutFile};
ghost use Rattle.tp_program.specs.Lines.{IsEditLine, IsMergeLine, IsNewLine, made_line as line_of_made};
ghost use Rattle.tp_report.specs.Names.{WasMade, output_of_made};
ghost use Rattle.tp_program.specs.Output.{CutsFor, IsFilesPrinted, IsLogPrinted, IsShown, RefusesCheckOutput, RefusesFilesOutput, RefusesRecoveryOutput, RefusesScriptOutput, MayCutFor, form_of};
ghost use Rattle.tp_report.specs.Telling.{GrowsBy, RefusesPrinting};
ghost use Rattle.tp_program.specs.Rescuing.{IsChecked, OfOthers};
ghost use Rattle.tp_report.specs.JobError.{IsAllSaid};
ghost use Rattle.tp_mirroring.specs.Taking.{Mirrors};

use crate::others::{Others, inserted_texts, read_others};
use crate::rescuing::{Rescued, check_report, rescue_report};
use crate::texts::{import_text, read_input, update_text};
use std::alloc::Global;
use std::io::{BufReader, Read, Write};
use std::time::Clock;
use tp_command_line::{FileJob, Inserted};
use tp_commands::{
    CommandError, DiffForm, begin, cursor_line, diff_lines, edit, graph_lines, hash_line,
    head_lines, id_line, log_lines, merge, pretty_lines, raw_text, reopen, saved_file,
    status_lines, text_in_file, text_line,
};
use tp_disk::{Disk, Opened, draw, draw_actor, generator, put_new, replace};
use tp_document::Document;
use tp_edit::Splice;
use tp_mirror::Take;
use tp_mirroring::{Paths, mirror, place_of};
use tp_opid::{Actor, DocId, Hash};
use tp_peer::{PeerSequence, create_journal};
use tp_report::{JobError, Made, put, put_made, put_updated};
use tp_simulate::simulate;
use tp_store::{StoreError, load};
use tp_textpeer::show;

/// Does what is to be done to files, where the path `-` of a text names `input`, and writes what is printed of it to
/// `out`, which is flushed. A refusal writes nothing
/// to `out`; where `out` itself failed, which is refused as `Io`, or was closed by who read it, it has taken a beginning of
/// what is printed; the refusal has what a job made whose lines these were. A script is printed line by line as it goes on, and
/// what was printed before a refusal stays. The lock of a journal that is written is waited for `wait` seconds.
pub fn carry_out<D: Disk + Clock + AllocGlobal, I: Read, W: Write>(
    rt: &D,
    job: FileJob,
    wait: u64,
    input: &mut I,
    out: &mut W,
    cut: &mut Option<u64>,
) -> Result<(), JobError>
    requires { cut.old ≡ None }
    ensures cuts { OnOk result
        (CutsFor (D.saw rt.now) job.entry cut.new) }
    ensures may_cut { OnErr result
        (MayCutFor (D.saw rt.now) job.entry cut.new) }
    ensures prints { OnOk result
        (GrowsBy (IsFilesPrinted (D.saw rt.now) job.entry)
        (W.contents out.old) (W.contents out.new)) }
    ensures err { IfErr result
        (λ e. RefusesFilesOutput (D.saw rt.now) job.entry (W.contents out.old)
        e (W.contents out.new)) }
    ensures unsaid { IfErr result
        (WasMade (IsFilesPrinted (D.saw rt.now) job.entry)) }
{
    match job {
        FileJob::New { file, key } => put_made(out, new(rt, file, key, wait)),
        FileJob::Edit {
            file,
            at,
            del,
            text,
            time,
            message,
            key,
        } => {
            let place = (at as usize, del as usize);
            put_made(
                out,
                edited_by(rt, file, place, text, input, time, message, key, wait, cut),
            )
        }
        FileJob::Update {
            file,
            source,
            since,
            time,
            message,
            key,
        } => put_updated(
            out,
            update_text(
                rt, file, source, &since, input, time, message, key, wait, cut,
            ),
        ),
        FileJob::Import {
            file,
            source,
            time,
            message,
            key,
        } => put_updated(
            out,
            import_text(rt, file, source, input, time, message, key, wait, cut),
        ),
        FileJob::Mirror {
            file,
            note,
            take,
            key,
        } => put(out, mirror_files(rt, file, note, take, key, wait, cut)),
        FileJob::Text {
            file,
            is_raw,
            heads,
        } => put(out, text(rt, file, is_raw, &heads)),
        FileJob::Heads { file } => put(out, heads(rt, file)),
        FileJob::Log { file, pretty, most } => put(out, log(rt, file, pretty, most)),
        FileJob::Graph { file } => put(out, graph(rt, file)),
        FileJob::Diff {
            file,
            from,
            to,
            context,
            is_worded,
        } => put(out, diff(rt, file, &from, &to, context, is_worded)),
        FileJob::Status { file } => put(out, status(rt, file)),
        FileJob::Cursor { file, at, heads } => put(out, cursor(rt, file, at as usize, &heads)),
        FileJob::Check { file } => check_file(rt, file, out),
        FileJob::Merge { file, other, key } => {
            put(out, merge_files(rt, file, other, key, wait, cut))
        }
        FileJob::Save { file, out: path } => put(out, save_to(rt, file, path)),
        FileJob::Load { saved, file } => put(out, load_from(rt, saved, file, wait)),
        FileJob::Recover {
            file,
            out: made,
            others,
        } => recover_job(rt, file, made, others, out),
        FileJob::Show { log } => show_file(rt, log, out),
        FileJob::Simulate { script } => simulate_file(rt, script, out),
    }
}

// What reads the file at a path.
fn reader_of<D: Disk + AllocGlobal>(
    rt: &D,
    path: &str,
) -> Result<BufReader<D::File>, CommandError> {
    let file = rt.open(path)?;
    Ok(BufReader::new(rt.alloc(), file)?)
}

// Writes the text of the log at a path.
fn show_file<D: Disk + AllocGlobal, W: Write>(
    rt: &D,
    log: &str,
    out: &mut W,
) -> Result<(), JobError>
    ensures ok { OnOk result (GrowsBy IsShown (W.contents out.old) (W.contents out.new)) }
    ensures err { IfErr result (λ e. RefusesPrinting IsShown (W.contents out.old) e (W.contents out.new)) }
    ensures said { IfErr result IsAllSaid }
{
    let mut reader = reader_of(rt, log)?;
    match show(rt.alloc(), &mut reader, out) {
        Ok(()) => Ok(()),
        Err(error) => Err(JobError::from(error)),
    }
}

// Runs the script at a path.
fn simulate_file<D: Disk + AllocGlobal, W: Write>(
    rt: &D,
    script: &str,
    out: &mut W,
) -> Result<(), JobError>
    ensures ok { OnOk result (Prints (W.contents out.old) (W.contents out.new)) }
    ensures err { IfErr result
        (λ e. RefusesScriptOutput (W.contents out.old) e (W.contents out.new)) }
    ensures said { IfErr result IsAllSaid }
{
    let mut reader = reader_of(rt, script)?;
    match simulate(rt.alloc(), &mut reader, out) {
        Ok(()) => Ok(()),
        Err(error) => Err(JobError::from(error)),
    }
}

fn text<D: Disk + AllocGlobal>(
    rt: &D,
    file: &str,
    is_raw: bool,
    heads: &[Hash],
) -> Result<String, CommandError>
    ensures { IfOk result (λ l. OfFile (D.saw rt.now) file.now
        (λ journal. IsTextPrinted is_raw journal heads.now (string_bytes l))) }
{
    let journal = rt.recover(file)?;
    if is_raw {
        raw_text(journal, heads)
    } else {
        text_line(rt.alloc(), journal, heads)
    }
}

fn heads<D: Disk + AllocGlobal>(rt: &D, file: &str) -> Result<String, CommandError>
    ensures { IfOk result (λ l. OfFile (D.saw rt.now) file.now
        (λ journal. AreHeadLines journal (string_bytes l))) }
{
    head_lines(rt.alloc(), rt.recover(file)?)
}

fn log<D: Disk + AllocGlobal>(
    rt: &D,
    file: &str,
    pretty: bool,
    most: u64,
) -> Result<String, CommandError>
    ensures { IfOk result (λ l. OfFile (D.saw rt.now) file.now
        (λ journal. IsLogPrinted pretty most journal (string_bytes l))) }
{
    if pretty {
        pretty_lines(rt.alloc(), rt.recover(file)?, most)
    } else {
        log_lines(rt.alloc(), rt.recover(file)?, most)
    }
}

fn graph<D: Disk + AllocGlobal>(rt: &D, file: &str) -> Result<String, CommandError>
    ensures { IfOk result (λ l. OfFile (D.saw rt.now) file.now
        (λ journal. IsChangeGraph journal (string_bytes l))) }
{
    graph_lines(rt.alloc(), rt.recover(file)?)
}

// The form that is asked for.
fn form_asked(file: &str, context: Option<u64>, is_worded: bool) -> DiffForm<'_>
    ensures { result ≡ form_of is_worded file.entry context }
{
    match (is_worded, context) {
        (false, None) => DiffForm::Lines,
        (false, Some(lines)) => DiffForm::Unified {
            file,
            context: lines as usize,
        },
        (true, None) => DiffForm::Words { context: 0 },
        (true, Some(lines)) => DiffForm::Words {
            context: lines as usize,
        },
    }
}

fn diff<D: Disk + AllocGlobal>(
    rt: &D,
    file: &str,
    from: &[Hash],
    to: &[Hash],
    context: Option<u64>,
    is_worded: bool,
) -> Result<String, CommandError>
    ensures { IfOk result (λ l. OfFile (D.saw rt.now) file.now
        (λ journal. IsDiff (form_of is_worded file.entry context) journal from.now to.now (string_bytes l))) }
{
    let read = rt.recover(file)?;
    diff_lines(
        rt.alloc(),
        read,
        from,
        to,
        &form_asked(file, context, is_worded),
    )
}

fn status<D: Disk + AllocGlobal>(rt: &D, file: &str) -> Result<String, CommandError>
    ensures { IfOk result (λ l. OfFile (D.saw rt.now) file.now
        (λ journal. (lock : Lock) × IsStatus journal lock (string_bytes l))) }
{
    let lock = rt.lock(file);
    status_lines(rt.alloc(), rt.recover(file)?, lock)
}

fn cursor<D: Disk + AllocGlobal>(
    rt: &D,
    file: &str,
    at: usize,
    heads: &[Hash],
) -> Result<String, CommandError>
    ensures { IfOk result (λ l. OfFile (D.saw rt.now) file.now
        (λ journal. IsCursorLine journal at heads.now (string_bytes l))) }
{
    cursor_line(rt.alloc(), rt.recover(file)?, at, heads)
}

// The document identifier and then the actor are drawn.
fn new<D: Disk + AllocGlobal>(
    rt: &D,
    file: &str,
    key: Option<[u8; 32]>,
    wait: u64,
) -> Result<(String, Option<Made>), CommandError>
    ensures line { IfOk result (λ p. ChangesFile (D.saw rt.now) file.now
        (λ before after. IsNewLine key before after (string_bytes p.0))) }
    ensures made { IfOk result
        (λ p. IfSome p.1 (λ made. string_bytes p.0 ≡ output_of_made made)) }
{
    let mut generator = generator(rt, key)?;
    let Actor(drawn) = draw(&mut generator);
    let id = DocId(drawn);
    let actor = draw(&mut generator);
    let mut journal = begin(rt.alloc(), rt.make_journal(file, wait)?, id, actor)?;
    rt.leave(file, &mut journal)?;
    Ok((id_line(rt.alloc(), &id)?, Some(Made::Document(id))))
}

// Makes the edit at a place, which is its position and how many characters it deletes, with a text that is given.
fn edited_by<D: Disk + AllocGlobal, I: Read>(
    rt: &D,
    file: &str,
    place: (usize, usize),
    text: Inserted,
    input: &mut I,
    time: u64,
    message: &str,
    key: Option<[u8; 32]>,
    wait: u64,
    cut: &mut Option<u64>,
) -> Result<(String, Option<Made>), CommandError>
    requires { cut.old ≡ None }
    ensures cuts { OnOk result (CutsFile (D.saw rt.now) file.now cut.new) }
    ensures may_cut { OnErr result
        (MayCutFile (D.saw rt.now) file.now cut.new) }
    ensures line { IfOk result (λ p. OfInserted (D.saw rt.now) text.entry
        (λ inserted. ChangesFile (D.saw rt.now) file.now
        (λ before after. IsEditLine key
        (record { at = place.0; del = place.1; text = inserted }) time (chars message.now)
        before after (string_bytes p.0)))) }
    ensures made { IfOk result
        (λ p. IfSome p.1 (λ made. string_bytes p.0 ≡ output_of_made made)) }
{
    let (at, del) = place;
    match text {
        Inserted::Given(text) => {
            edit_file(
                rt,
                file,
                Splice { at, del, text },
                time,
                message,
                key,
                wait,
                cut,
            )
        }
        Inserted::InFile(path) => {
            let bytes = read_input(rt, path, input)?;
            let text = text_in_file(&bytes)?;
            edit_file(
                rt,
                file,
                Splice { at, del, text },
                time,
                message,
                key,
                wait,
                cut,
            )
        }
    }
}

fn edit_file<D: Disk + AllocGlobal>(
    rt: &D,
    file: &str,
    splice: Splice,
    time: u64,
    message: &str,
    key: Option<[u8; 32]>,
    wait: u64,
    cut: &mut Option<u64>,
) -> Result<(String, Option<Made>), CommandError>
    requires { cut.old ≡ None }
    ensures cuts { OnOk result (CutsFile (D.saw rt.now) file.now cut.new) }
    ensures may_cut { OnErr result
        (MayCutFile (D.saw rt.now) file.now cut.new) }
    ensures line { IfOk result (λ p. ChangesFile (D.saw rt.now) file.now
        (λ before after. IsEditLine key splice.entry time (chars message.now) before after
        (string_bytes p.0))) }
    ensures made { IfOk result
        (λ p. IfSome p.1 (λ made. string_bytes p.0 ≡ output_of_made made)) }
{
    let actor = draw_actor(rt, key)?;
    let Opened {
        journal,
        recovered,
        cut: kept,
    } = rt.journal(file, wait)?;
    *cut = kept;
    let opened = (journal, Ok(recovered));
    let (mut journal, made) = edit(rt.alloc(), opened, actor, splice, time, message)?;
    rt.leave(file, &mut journal)?;
    made_line(rt.alloc(), made)
}

// The line of what an edit made, and that.
fn made_line(alloc: Global, made: Option<Hash>) -> Result<(String, Option<Made>), CommandError>
    ensures line { IfOk result (λ p. string_bytes p.0 ≡ line_of_made made) }
    ensures made { IfOk result
        (λ p. IfSome p.1 (λ made. string_bytes p.0 ≡ output_of_made made)) }
{
    match made {
        Some(hash) => Ok((hash_line(alloc, &hash)?, Some(Made::Change(hash)))),
        None => Ok((String::from_str(alloc, "nothing\n")?, None)),
    }
}

// Brings a journal and a text file in step; of that nothing is printed.
fn mirror_files<D: Disk + Clock + AllocGlobal>(
    rt: &D,
    file: &str,
    note: &str,
    take: Option<Take>,
    key: Option<[u8; 32]>,
    wait: u64,
    cut: &mut Option<u64>,
) -> Result<String, CommandError>
    requires { cut.old ≡ None }
    ensures cuts { OnOk result (CutsFile (D.saw rt.now) file.now cut.new) }
    ensures may_cut { OnErr result
        (MayCutFile (D.saw rt.now) file.now cut.new) }
    ensures printed { IfOk result (λ l. string_bytes l ≡ []) }
    ensures mirrors { OnOk result ((place : List ℕ) × ChangesFile (D.saw rt.now) file.now
        (Mirrors (D.saw rt.now) place)) }
{
    let place = place_of(rt, note)?;
    let paths = Paths::new(rt.alloc(), file, place.as_str())?;
    let mut random = generator(rt, key)?;
    mirror(rt, &paths, take, &mut random, wait, cut)?;
    Ok(String::new(rt.alloc()))
}

fn merge_files<D: Disk + AllocGlobal>(
    rt: &D,
    file: &str,
    other: &str,
    key: Option<[u8; 32]>,
    wait: u64,
    cut: &mut Option<u64>,
) -> Result<String, CommandError>
    requires { cut.old ≡ None }
    ensures cuts { OnOk result (CutsFile (D.saw rt.now) file.now cut.new) }
    ensures may_cut { OnErr result
        (MayCutFile (D.saw rt.now) file.now cut.new) }
    ensures line { IfOk result (λ l. ChangesFile (D.saw rt.now) file.now
        (λ before after. OfFile (D.saw rt.now) other.now
        (λ bytes. IsMergeLine key before bytes after (string_bytes l)))) }
{
    let mut generator = generator(rt, key)?;
    let actor = draw(&mut generator);
    let other_actor = draw(&mut generator);
    let Opened {
        journal,
        recovered,
        cut: kept,
    } = rt.journal(file, wait)?;
    *cut = kept;
    let peer = reopen(rt.alloc(), (journal, Ok(recovered)), actor)?;
    match rt.recover(other) {
        Ok(read) => {
            let (mut journal, count) = merge(rt.alloc(), peer, read, other_actor)?;
            rt.leave(file, &mut journal)?;
            Ok(format!(in rt.alloc(); "applied {count}\n")?)
        }
        Err(error) => {
            drop(peer);
            Err(error)
        }
    }
}

fn save_to<D: Disk + AllocGlobal>(rt: &D, file: &str, out: &str) -> Result<String, CommandError>
    ensures empty { IfOk result (λ l. string_bytes l ≡ []) }
    ensures saved { OnOk result (OfFile (D.saw rt.now) file.now
        (λ journal. SavesTo (D.saw rt.now) out.now journal)) }
{
    let bytes = saved_file(rt.alloc(), rt.recover(file)?)?;
    replace(rt, out, file, &bytes)?;
    Ok(String::new(rt.alloc()))
}

// Writes what is in the journal at a path. It is refused for what is at fault there, once that is written.
fn check_file<D: Disk + AllocGlobal, W: Write>(
    rt: &D,
    file: &str,
    out: &mut W,
) -> Result<(), JobError>
    ensures ok { OnOk result
        (GrowsBy (λ printed. OfFile (D.saw rt.now) file.now
        (λ bytes. IsChecked bytes None printed)) (W.contents out.old) (W.contents out.new)) }
    ensures err { IfErr result (λ e. RefusesCheckOutput (D.saw rt.now) file.now (W.contents out.old)
        e (W.contents out.new)) }
    ensures said { IfErr result IsAllSaid }
{
    rt.check_journal(file)?;
    let bytes = rt.read(file)?;
    let (text, fault) = check_report(rt.alloc(), &bytes)?;
    match put(out, Ok(text)) {
        Ok(()) => match fault {
            Some(error) => Err(JobError::Command(CommandError::from(error))),
            None => Ok(()),
        },
        Err(error) => Err(error),
    }
}

// Makes the journal of all that can be had of the one at a path and of other files; what is printed of that, and why it lacks
// one of the first one's whole changes, if it does.
fn recover_to<D: Disk + AllocGlobal>(
    rt: &D,
    file: &str,
    made: &str,
    paths: &[&str],
) -> Result<(String, Option<StoreError>), CommandError>
    ensures { IfOk result (λ r. OfFile (D.saw rt.now) file.now
        (λ bytes. OfOthers (D.saw rt.now) (map (λ p. p.now) paths.now) (λ more ids.
        RescuesTo (D.saw rt.now) made.now bytes more ids r.1 (string_bytes r.0)))) }
{
    rt.check_journal(file)?;
    let bytes = rt.read(file)?;
    let Others { changes, ids } = read_others(rt, paths)?;
    let Rescued {
        journal,
        text,
        lacking,
    } = rescue_report(rt.alloc(), &bytes, changes, &ids)?;
    put_new(rt, made, file, &journal)?;
    Ok((text, lacking))
}

// Makes the journal of all that can be had, and writes what is printed of that. It is refused for the first whole change that
// is lacking, once that is written.
fn recover_file<D: Disk + AllocGlobal, W: Write>(
    rt: &D,
    file: &str,
    made: &str,
    paths: &[&str],
    out: &mut W,
) -> Result<(), JobError>
    ensures ok { OnOk result
        (GrowsBy (IsRecoveryOutput (D.saw rt.now) file.now (Some made.entry)
        (map (λ p. p.now) paths.now) None) (W.contents out.old) (W.contents out.new)) }
    ensures err { IfErr result (λ e. RefusesRecoveryOutput (D.saw rt.now) file.now
        (Some made.entry) (map (λ p. p.now) paths.now) (W.contents out.old)
        e (W.contents out.new)) }
    ensures said { IfErr result IsAllSaid }
{
    let (text, lacking) = recover_to(rt, file, made, paths)?;
    match put(out, Ok(text)) {
        Ok(()) => match lacking {
            Some(error) => Err(JobError::Command(CommandError::from(error))),
            None => Ok(()),
        },
        Err(error) => Err(error),
    }
}

// What the whole records in the journal at a path, and in other files, inserted.
fn texts_of_records<D: Disk + AllocGlobal>(
    rt: &D,
    file: &str,
    paths: &[&str],
) -> Result<String, CommandError>
    ensures { IfOk result (λ l. IsRecoveryOutput (D.saw rt.now) file.now None
        (map (λ p. p.now) paths.now) None (string_bytes l)) }
{
    rt.check_journal(file)?;
    let bytes = rt.read(file)?;
    let others = read_others(rt, paths)?;
    inserted_texts(rt.alloc(), &bytes, &others.changes)
}

// Makes the journal of all that can be had, where it has a path, and else writes what the whole records inserted.
fn recover_by<D: Disk + AllocGlobal, W: Write>(
    rt: &D,
    file: &str,
    made: Option<&str>,
    paths: &[&str],
    out: &mut W,
) -> Result<(), JobError>
    ensures ok { OnOk result
        (GrowsBy (IsRecoveryOutput (D.saw rt.now) file.now made.entry
        (map (λ p. p.now) paths.now) None) (W.contents out.old) (W.contents out.new)) }
    ensures err { IfErr result (λ e. RefusesRecoveryOutput (D.saw rt.now) file.now made.entry
        (map (λ p. p.now) paths.now) (W.contents out.old) e (W.contents out.new)) }
    ensures said { IfErr result IsAllSaid }
{
    match made {
        Some(path) => recover_file(rt, file, path, paths, out),
        None => put(out, texts_of_records(rt, file, paths)),
    }
}

// Does what [`recover_by`] does.
fn recover_job<D: Disk + AllocGlobal, W: Write>(
    rt: &D,
    file: &str,
    made: Option<&str>,
    others: Vec<&str>,
    out: &mut W,
) -> Result<(), JobError>
    ensures ok { OnOk result
        (GrowsBy (IsRecoveryOutput (D.saw rt.now) file.now made.entry
        (map (λ p. p.now) others.entry.items) None) (W.contents out.old) (W.contents out.new)) }
    ensures err { IfErr result (λ e. RefusesRecoveryOutput (D.saw rt.now) file.now made.entry
        (map (λ p. p.now) others.entry.items) (W.contents out.old) e (W.contents out.new)) }
    ensures said { IfErr result IsAllSaid }
{
    recover_by(rt, file, made, &others, out)
}

// Begins the journal at a path with the document.
fn begin_at<D: Disk + AllocGlobal>(
    rt: &D,
    file: &str,
    document: &Document<PeerSequence>,
    wait: u64,
) -> Result<(), CommandError>
    ensures { OnOk result (ChangesFile (D.saw rt.now) file.now
        (λ before after. BeginsJournal document.now.id document.now.applied before after)) }
{
    let mut journal = rt.make_journal(file, wait)?;
    create_journal(rt.alloc(), &mut journal, document)?;
    rt.leave(file, &mut journal)
}

fn load_from<D: Disk + AllocGlobal>(
    rt: &D,
    saved: &str,
    file: &str,
    wait: u64,
) -> Result<String, CommandError>
    ensures empty { IfOk result (λ l. string_bytes l ≡ []) }
    ensures begun { OnOk result (OfFile (D.saw rt.now) saved.now
        (λ bytes. ChangesFile (D.saw rt.now) file.now (IsLoaded bytes))) }
{
    let document = load::<PeerSequence>(rt.alloc(), &rt.read(saved)?)?;
    let begun = begin_at(rt, file, &document, wait);
    drop(document);
    begun?;
    Ok(String::new(rt.alloc()))
}

//! Journals and saved files.

use std::alloc::Global;
use std::fs;
use std::rt::{Clock, Files};
use tp_bench_measure::{Branch, Stopwatch, report_memory};
use tp_change::Change;
use tp_document::Document;
use tp_journal::{FileJournal, Journal, Lockable, header, put_record, record, recover};
use tp_opid::DocId;
use tp_posindex::BlockSequence;
use tp_store::{load, save};

/// A document.
pub type Doc = Document<BlockSequence>;

/// How many changes there are.
pub const CHANGES: u64 = 100_000;

const TENTHS: u64 = 10;

/// The document.
pub const ID: DocId = DocId([7; 16]);

const PATH: &str = "tp_bench_runs.journal";

// Appends the record of the change.
fn append<J: Journal>(alloc: Global, journal: &mut J, change: &Change) -> anyhow::Result<()> {
    let bytes = record(alloc, change)?;
    Ok(journal.append(&bytes)?)
}

// Appends the records of the changes one by one, and answers what that took in microseconds.
fn append_all<R: Clock + AllocGlobal, J: Journal>(
    rt: &R,
    journal: &mut J,
    changes: &[Change],
) -> anyhow::Result<u64> {
    let watch = Stopwatch::start(rt);
    for change in changes {
        append(rt.alloc(), journal, change)?;
    }
    Ok(watch.micros(rt))
}

// Appends the records of a tenth of the changes, and prints what it took.
fn append_tenth<R: Clock + Print + AllocGlobal, J: Journal>(
    rt: &R,
    journal: &mut J,
    branch: &mut Branch,
    number: u64,
) -> anyhow::Result<()> {
    let batch = branch.next(rt.alloc(), CHANGES / TENTHS)?;
    let micros = append_all(rt, journal, &batch)?;
    Ok(println!(rt; "journal-append tenth {number:>2} {micros:>8} micros")?)
}

// Appends 100,000 records of one character to a journal.
fn append_tenths<R: Clock + Print + AllocGlobal, J: Journal>(
    rt: &R,
    journal: &mut J,
) -> anyhow::Result<()> {
    let mut branch = Branch::new(0, 1);
    for tenth in 0..TENTHS {
        append_tenth(rt, journal, &mut branch, tenth + 1)?;
    }
    Ok(())
}

/// 100,000 records of one character, appended to a file one by one.
pub fn run_append<R: Files + Clock + Print + AllocGlobal>(rt: &R) -> anyhow::Result<()>
where
    R::File: Lockable,
{
    let mut journal = FileJournal::at(rt, rt.alloc(), PATH, true)?;
    journal.cut(0)?;
    append_tenths(rt, &mut journal)?;
    journal.sync()?;
    Ok(fs::remove_file(rt, PATH)?)
}

/// The bytes with the records of the changes after them.
pub fn with_records(bytes: Vec<u8>, changes: &[Change]) -> anyhow::Result<Vec<u8>> {
    let mut whole = bytes;
    for change in changes {
        whole = put_record(whole, change)?;
    }
    Ok(whole)
}

// The document of a journal, and what it took to recover it, in microseconds.
fn time_recover<R: Clock + AllocGlobal>(rt: &R, bytes: &[u8]) -> anyhow::Result<(Doc, u64)> {
    let watch = Stopwatch::start(rt);
    let recovered = recover(rt.alloc(), bytes)?;
    let micros = watch.micros(rt);
    Ok((recovered.document, micros))
}

// Recovers the journal, and prints what it took.
fn report_recovered<R: Clock + Print + AllocGlobal>(
    rt: &R,
    tenths: u64,
    bytes: &[u8],
) -> anyhow::Result<()> {
    let (_document, micros) = time_recover(rt, bytes)?;
    let len = bytes.len();
    Ok(println!(rt; "journal-recover tenths {tenths:>2} {len:>9} bytes {micros:>8} micros")?)
}

// The bytes with the records of a tenth of the changes after them.
fn with_tenth(alloc: Global, bytes: Vec<u8>, branch: &mut Branch) -> anyhow::Result<Vec<u8>> {
    let batch = branch.next(alloc, CHANGES / TENTHS)?;
    with_records(bytes, &batch)
}

// Recovers journals that grow by a tenth each, from a header.
fn recover_tenths<R: Clock + Print + AllocGlobal>(rt: &R, header: Vec<u8>) -> anyhow::Result<()> {
    let mut branch = Branch::new(0, 1);
    let mut bytes = header;
    for tenth in 0..TENTHS {
        bytes = with_tenth(rt.alloc(), bytes, &mut branch)?;
        report_recovered(rt, tenth + 1, &bytes)?;
    }
    Ok(())
}

/// Journals of up to 100,000 records of one character, recovered.
pub fn run_recover<R: Files + Clock + Print + AllocGlobal>(rt: &R) -> anyhow::Result<()> {
    let begun = header(rt.alloc(), ID)?;
    recover_tenths(rt, begun)?;
    report_memory(rt)
}

/// A chain of 100,000 changes of one character.
pub fn long_changes(alloc: Global) -> anyhow::Result<Vec<Change>> {
    Branch::new(0, 1).next(alloc, CHANGES)
}

// The journal of these.
fn long_journal(alloc: Global) -> anyhow::Result<Vec<u8>> {
    with_records(header(alloc, ID)?, &long_changes(alloc)?)
}

/// The document of a journal.
pub fn recovered_document<R: Clock + AllocGlobal>(rt: &R, bytes: &[u8]) -> anyhow::Result<Doc> {
    let (document, _micros) = time_recover(rt, bytes)?;
    Ok(document)
}

/// Opens the document of a journal, and prints what that took.
pub fn report_opened<R: Clock + Print + AllocGlobal>(rt: &R, bytes: &[u8]) -> anyhow::Result<()> {
    let (_document, micros) = time_recover(rt, bytes)?;
    Ok(println!(rt; "opened {:>18} bytes {micros:>8} micros", bytes.len())?)
}

// Saves the document, and prints what it took.
fn save_and_report<R: Clock + Print + AllocGlobal>(
    rt: &R,
    document: &Doc,
) -> anyhow::Result<Vec<u8>> {
    let watch = Stopwatch::start(rt);
    let bytes = save(rt.alloc(), document)?;
    let micros = watch.micros(rt);
    println!(rt; "save {:>9} bytes {micros:>8} micros", bytes.len())?;
    Ok(bytes)
}

// The document that the bytes keep, and what it took to load it, in microseconds.
fn time_load<R: Clock + AllocGlobal>(rt: &R, bytes: &[u8]) -> anyhow::Result<(Doc, u64)> {
    let watch = Stopwatch::start(rt);
    let document = load(rt.alloc(), bytes)?;
    let micros = watch.micros(rt);
    Ok((document, micros))
}

/// Loads a document, and prints what that took.
pub fn report_loaded<R: Clock + Print + AllocGlobal>(rt: &R, bytes: &[u8]) -> anyhow::Result<()> {
    let (document, micros) = time_load(rt, bytes)?;
    let count = document.changes().len();
    let len = bytes.len();
    Ok(println!(rt; "load {count:>9} changes {len:>9} bytes {micros:>8} micros")?)
}

// Saves and loads a document of 100,000 changes.
fn save_and_load<R: Clock + Print + AllocGlobal>(rt: &R) -> anyhow::Result<()> {
    let document = recovered_document(rt, &long_journal(rt.alloc())?)?;
    let bytes = save_and_report(rt, &document)?;
    report_loaded(rt, &bytes)
}

/// A document of 100,000 changes of one character, saved and loaded.
pub fn run_saved<R: Files + Clock + Print + AllocGlobal>(rt: &R) -> anyhow::Result<()> {
    save_and_load(rt)?;
    report_memory(rt)
}

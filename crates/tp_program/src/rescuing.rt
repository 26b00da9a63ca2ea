//! What is said of a journal's bytes, whatever is damaged in them, and what is had of them.

ghost use Rattle.std.specs.Prelude.{◌≡◌, ◌≤◌, ◌++◌, ◌||◌, [], List, length, take, Some, false, not, option_map, codes, IfOk, OnOk};
ghost use Rattle.std.specs.List.{list_all, list_any};
ghost use Rattle.std.specs.String.{string_bytes};
ghost use Rattle.tp_opid.specs.Same.{same_doc, same_hash};
ghost use Rattle.tp_opid.specs.declared.hash.Hash.{Hash as HashOf};
ghost use Rattle.tp_layout.specs.declared.parts.ChangeParts.{ChangeParts};
ghost use Rattle.tp_change.specs.ChangeHash.{hash_of};
ghost use Rattle.tp_history.specs.Fit.{cause};
ghost use Rattle.tp_history.specs.Named.{has};
ghost use Rattle.tp_recovery.specs.Layout.{journal};
ghost use Rattle.tp_recovery.specs.Whole.{Rescues};
ghost use Rattle.tp_store.specs.declared.error.StoreError.TheVariants.{Refused};
ghost use Rattle.tp_program.specs.Rescuing.{IsChecked, IsRescued, Names, cause_left as cause_of_left, check_text as text_of_check, check_fault as fault_in, first_left as first_of_left, id_chosen, identifier_line as line_of_identifier, left_after, left_line as line_of_left, left_lines as lines_of_left, lost_line as line_of_lost, lost_lines as lines_of_lost, refused_line as line_of_refused, rescue_text as text_of_rescue, tail_start as start_of_tail};

use std::alloc::Global;
use std::collections::BTreeSet;
use tp_change::Change;
use tp_commands::{CommandError, hash_line, id_line};
use tp_document::{DocError, Document};
use tp_graph::{Graph, GraphError};
use tp_journal::{HEADER_BYTES, Inspection, MemJournal, WholeRecord, inspect, rescue};
use tp_opid::{DocId, Hash};
use tp_peer::{PeerSequence, create_journal};
use tp_simulate::bytes_name;
use tp_store::StoreError;

// The line of why recovering refuses the bytes, and where.
fn refused_line(alloc: Global, fault: Option<StoreError>, at: u64) -> Result<String, CommandError>
    ensures { IfOk result (λ l. string_bytes l ≡ line_of_refused fault at) }
{
    match fault {
        Some(error) => Ok(format!(in alloc; "refused {} {at}\n", bytes_name(error))?),
        None => Ok(String::new(alloc)),
    }
}

// What is printed of what is in the bytes.
fn check_text(
    alloc: Global,
    changes: usize,
    keep: u64,
    beyond: u64,
    whole: usize,
    fault: Option<StoreError>,
) -> Result<String, CommandError>
    ensures { IfOk result
        (λ t. string_bytes t ≡ text_of_check changes keep beyond whole fault) }
{
    let refused = refused_line(alloc, fault, keep)?;
    Ok(format!(in alloc;
        "changes {changes}\nkept {keep}\nbehind {beyond}\nwhole {whole}\n{refused}"
    )?)
}

// What is at fault in all.
fn check_fault(fault: Option<StoreError>, keep: u64, records: &[WholeRecord]) -> Option<StoreError>
    ensures { result ≡ fault_in fault keep records.now }
{
    match fault {
        Some(error) => Some(error),
        None => {
            if records.is_empty() {
                None
            } else {
                Some(StoreError::Damaged { at: keep })
            }
        }
    }
}

/// What is printed of what is in the bytes of a journal, and what is at fault there. The only refusal is `OutOfMemory`.
pub(crate) fn check_report(
    alloc: Global,
    bytes: &[u8],
) -> Result<(String, Option<StoreError>), CommandError>
    ensures { IfOk result (λ c. IsChecked bytes.now c.1 (string_bytes c.0)) }
{
    match inspect::<PeerSequence>(alloc, bytes) {
        Ok(found) => {
            let beyond = (bytes.len() as u64).saturating_sub(found.keep);
            let text = check_text(
                alloc,
                found.document.changes().len(),
                found.keep,
                beyond,
                found.records.len(),
                found.fault,
            );
            let fault = check_fault(found.fault, found.keep, found.records.as_slice());
            drop(found);
            Ok((text?, fault))
        }
        Err(StoreError::OutOfMemory) => Err(CommandError::OutOfMemory),
        Err(error) => {
            let text = check_text(alloc, 0, 0, bytes.len() as u64, 0, Some(error))?;
            Ok((text, Some(error)))
        }
    }
}

// Puts the line of bytes from which no change came, if there are any.
fn put_lost(alloc: Global, lines: String, from: u64, to: u64) -> Result<String, CommandError>
    ensures { IfOk result
        (λ l. string_bytes l ≡ string_bytes lines ++ line_of_lost from to) }
{
    let mut lines = lines;
    if from < to {
        lines.push_str(format!(in alloc; "lost {from} {to}\n")?.as_str())?;
    }
    Ok(lines)
}

// The lines of bytes from which no change of the document came, from the offset on.
fn lost_lines(
    alloc: Global,
    document: &Document<PeerSequence>,
    from: u64,
    to: u64,
    records: &[WholeRecord],
) -> Result<String, CommandError>
    ensures { IfOk result (λ l. string_bytes l
        ≡ lines_of_lost document.now.applied from to records.now) }
{
    let mut lines = String::new(alloc);
    let mut beyond = from;
    for record in records {
        if document.contains(&record.hash) {
            lines = put_lost(alloc, lines, beyond, record.at)?;
            beyond = record.end;
        }
    }
    put_lost(alloc, lines, beyond, to)
}

// The line of a change that was left out for this cause.
fn left_text(alloc: Global, error: GraphError, hash: &Hash) -> Result<String, CommandError>
    ensures { IfOk result
        (λ l. string_bytes l ≡ line_of_left (Some error) false hash.now) }
{
    let digits = hash_line(alloc, hash)?;
    Ok(format!(in alloc; "left {} {digits}", bytes_name(StoreError::Refused(error)))?)
}

// Notes a hash; whether it wasn't noted yet.
fn note_hash(named: &mut BTreeSet<Hash>, hash: &Hash) -> Result<bool, CommandError>
    ensures new { IfOk result (λ new. new ≡ not (list_any (same_hash hash.now) named.old.keys)) }
    ensures noted { OnOk result ((h : HashOf) → list_any (same_hash h) named.new.keys
        ≡ (same_hash hash.now h || list_any (same_hash h) named.old.keys)) }
{
    match named.insert(*hash) {
        Ok(new) => Ok(new),
        Err(_) => Err(CommandError::OutOfMemory),
    }
}

// Puts the line of a change that was left out for this cause, unless its hash was named.
fn put_left_for(
    alloc: Global,
    lines: String,
    named: &mut BTreeSet<Hash>,
    error: GraphError,
    hash: &Hash,
) -> Result<String, CommandError>
    ensures line { IfOk result (λ l. string_bytes l ≡ string_bytes lines
        ++ line_of_left (Some error) (list_any (same_hash hash.now) named.old.keys) hash.now) }
    ensures named { OnOk result ((h : HashOf) → list_any (same_hash h) named.new.keys
        ≡ (same_hash hash.now h || list_any (same_hash h) named.old.keys)) }
{
    if note_hash(named, hash)? {
        let line = left_text(alloc, error, hash)?;
        let mut lines = lines;
        lines.push_str(line.as_str())?;
        Ok(lines)
    } else {
        Ok(lines)
    }
}

// Why a change that isn't there can't enter; `None` where it is there.
fn cause_left(graph: &Graph, change: &Change) -> Result<Option<GraphError>, CommandError>
    ensures { IfOk result (λ left. left ≡ cause_of_left (cause graph.now.applied change.now)) }
{
    match graph.check(change) {
        Ok(()) => Ok(None),
        Err(GraphError::Known) => Ok(None),
        Err(GraphError::OutOfMemory) => Err(CommandError::OutOfMemory),
        Err(error) => Ok(Some(error)),
    }
}

// Puts the line of a change, if it was left out and its hash wasn't named.
fn put_left(
    alloc: Global,
    graph: &Graph,
    lines: String,
    named: &mut BTreeSet<Hash>,
    change: &Change,
) -> Result<String, CommandError>
    ensures { (before : List ChangeParts) → Names named.old.keys before → IfOk result (λ l.
        (string_bytes l ≡ string_bytes lines
        ++ line_of_left (cause_of_left (cause graph.now.applied change.now))
        (has before (hash_of change.now)) (hash_of change.now))
        × Names named.new.keys
        (left_after (cause_of_left (cause graph.now.applied change.now)) change.now before)) }
{
    match cause_left(graph, change)? {
        Some(error) => put_left_for(alloc, lines, named, error, &change.hash()),
        None => Ok(lines),
    }
}

// The lines of the changes that were left out, each hash once.
fn left_lines(alloc: Global, graph: &Graph, changes: &[Change]) -> Result<String, CommandError>
    ensures { IfOk result
        (λ l. string_bytes l ≡ lines_of_left graph.now.applied [] changes.now) }
{
    let mut lines = String::new(alloc);
    let mut named = BTreeSet::new(alloc);
    for change in changes {
        lines = put_left(alloc, graph, lines, &mut named, change)?;
    }
    Ok(lines)
}

// Why the first of the changes that were left out was, if any was.
fn first_left(graph: &Graph, changes: &[Change]) -> Result<Option<GraphError>, CommandError>
    ensures { IfOk result (λ left. left ≡ first_of_left graph.now.applied changes.now) }
{
    for change in changes {
        if let Some(error) = cause_left(graph, change)? {
            return Ok(Some(error));
        }
    }
    Ok(None)
}

// The line of the identifier, where it isn't the damaged journal's own.
fn identifier_line(alloc: Global, own: &DocId, id: &DocId) -> Result<String, CommandError>
    ensures { IfOk result (λ l. string_bytes l ≡ line_of_identifier own.now id.now) }
{
    if own.is(id) {
        return Ok(String::new(alloc));
    }
    let digits = id_line(alloc, id)?;
    Ok(format!(in alloc; "identifier {digits}")?)
}

/// The damaged journal, where its changes enter.
#[derive(Clone, Copy)]
struct Damaged {
    // The identifier that is in it.
    own: DocId,
    // The offset from which on no change is kept.
    from: u64,
    // How many bytes it has.
    to: u64,
    // How many of the changes are its own.
    count: usize,
}

// What is printed of what was had: from which bytes, from the offset on, no change came, and which changes were left out.
fn rescue_text(
    alloc: Global,
    document: &Document<PeerSequence>,
    damaged: Damaged,
    records: &[WholeRecord],
    changes: &[Change],
) -> Result<String, CommandError>
    ensures { IfOk result (λ t. string_bytes t
        ≡ text_of_rescue damaged.own document.now.id document.now.applied damaged.from damaged.to
        records.now changes.now) }
{
    let count = document.changes().len();
    let mut text = format!(in alloc; "changes {count}\n")?;
    text.push_str(identifier_line(alloc, &damaged.own, &document.id())?.as_str())?;
    text.push_str(lost_lines(alloc, document, damaged.from, damaged.to, records)?.as_str())?;
    text.push_str(left_lines(alloc, document.graph(), changes)?.as_str())?;
    Ok(text)
}

// Enters all that fits, and makes the journal.
fn journal_with(
    alloc: Global,
    document: &mut Document<PeerSequence>,
    changes: &[Change],
) -> Result<Vec<u8>, CommandError>
    ensures rescues { OnOk result
        (Rescues changes.now document.old.applied document.new.applied) }
    ensures journal { IfOk result
        (λ bytes. bytes.items ≡ journal document.old.id document.new.applied) }
    ensures id { document.new.id ≡ document.old.id }
{
    rescue(document, changes)?;
    let mut made = MemJournal::new(Vec::new(alloc));
    create_journal(alloc, &mut made, document)?;
    Ok(made.into_vec())
}

/// A journal of what could be had of a damaged one.
#[derive(Drop)]
pub(crate) struct Rescued {
    /// Its bytes.
    pub(crate) journal: Vec<u8>,
    /// What is printed of it.
    pub(crate) text: String,
    /// Why it lacks the first of the damaged one's whole changes that it lacks, if it lacks any.
    pub(crate) lacking: Option<StoreError>,
}

// Why the journal lacks one of the first changes, as many as these, if it does.
fn lacking(
    document: &Document<PeerSequence>,
    changes: &[Change],
    count: usize,
) -> Result<Option<StoreError>, CommandError>
    requires { count ≤ length changes.now }
    ensures { IfOk result (λ lacking. lacking ≡ option_map Refused
        (first_of_left document.now.applied (take count changes.now))) }
{
    match first_left(document.graph(), &changes[..count])? {
        Some(error) => Ok(Some(StoreError::Refused(error))),
        None => Ok(None),
    }
}

// The journal of what was kept and all that fits after it, and what is printed of that.
fn journal_and_report(
    alloc: Global,
    mut document: Document<PeerSequence>,
    damaged: Damaged,
    records: &[WholeRecord],
    changes: &[Change],
) -> Result<Rescued, CommandError>
    requires { damaged.count ≤ length changes.now }
    ensures { IfOk result (λ r. (had : List ChangeParts)
        × Rescues changes.now document.applied had
        × (r.journal.items ≡ journal document.id had)
        × (r.lacking ≡ option_map Refused (first_of_left had (take damaged.count changes.now)))
        × (string_bytes r.text ≡ text_of_rescue damaged.own document.id had damaged.from
        damaged.to records.now changes.now)) }
{
    let made = journal_with(alloc, &mut document, changes);
    let text = rescue_text(alloc, &document, damaged, records, changes);
    let lacking = lacking(&document, changes, damaged.count);
    drop(document);
    Ok(Rescued {
        journal: made?,
        text: text?,
        lacking: lacking?,
    })
}

// The offset from which on whole records are looked for.
fn tail_start(keep: u64) -> u64
    ensures { result ≡ start_of_tail keep }
{
    if keep == 0 { HEADER_BYTES as u64 } else { keep }
}

// The identifier of the journal that is made.
fn chosen_id(document: &Document<PeerSequence>, ids: &[DocId]) -> DocId
    ensures { result ≡ id_chosen document.now.applied document.now.id ids.now }
{
    if document.changes().is_empty() && !ids.is_empty() {
        ids[0]
    } else {
        document.id()
    }
}

// Whether each of the identifiers is this one.
fn are_all(ids: &[DocId], id: DocId) -> bool
    ensures { result ≡ list_all (same_doc id) ids.now }
{
    ids.iter().all(|other| id.is(other))
}

// The document with the identifier, which may be another than its own only where it has no change.
fn document_under(
    alloc: Global,
    document: Document<PeerSequence>,
    ids: &[DocId],
) -> Document<PeerSequence>
    ensures id { result.id ≡ id_chosen document.applied document.id ids.now }
    ensures applied { result.applied ≡ document.applied }
{
    let id = chosen_id(&document, ids);
    if document.changes().is_empty() {
        drop(document);
        Document::new(alloc, id)
    } else {
        document
    }
}

// The changes, and others after them.
fn with_more(changes: Vec<Change>, more: Vec<Change>) -> Result<Vec<Change>, CommandError>
    ensures { IfOk result (λ all. all.items ≡ changes.items ++ more.items) }
{
    let mut all = changes;
    let mut more = more;
    all.append(&mut more)?;
    Ok(all)
}

// The journal of what is in a damaged one, which has as many bytes as `to`, and in other files.
fn rescued_journal(
    alloc: Global,
    found: Inspection<PeerSequence>,
    to: u64,
    more: Vec<Change>,
    ids: &[DocId],
) -> Result<Rescued, CommandError>
    ensures { IfOk result (λ r. (had : List ChangeParts)
        × Rescues (found.changes.items ++ more.items) found.document.applied had
        × (r.journal.items
        ≡ journal (id_chosen found.document.applied found.document.id ids.now) had)
        × (r.lacking ≡ option_map Refused (first_of_left had found.changes.items))
        × (string_bytes r.text ≡ text_of_rescue found.document.id
        (id_chosen found.document.applied found.document.id ids.now) had
        (start_of_tail found.keep) to found.records.items (found.changes.items ++ more.items))) }
{
    let Inspection {
        document,
        keep,
        fault: _,
        records,
        changes,
    } = found;
    let damaged = Damaged {
        own: document.id(),
        from: tail_start(keep),
        to,
        count: changes.len(),
    };
    let document = document_under(alloc, document, ids);
    match with_more(changes, more) {
        Ok(all) => journal_and_report(alloc, document, damaged, records.as_slice(), all.as_slice()),
        Err(error) => {
            drop(document);
            Err(error)
        }
    }
}

/// The journal of all that can be had of a journal's bytes, and of the changes that other files have, with the identifiers
/// in their headers; and what is printed of that. It is refused as `NoHeader` or `BadMagic` where nothing can be had of the
/// bytes, and as `OtherDocument` where an identifier isn't that of the journal; the only other refusal is `OutOfMemory`.
pub(crate) fn rescue_report(
    alloc: Global,
    bytes: &[u8],
    more: Vec<Change>,
    ids: &[DocId],
) -> Result<Rescued, CommandError>
    ensures { IfOk result (λ r. IsRescued bytes.now more.items ids.now r.journal.items
        r.lacking (string_bytes r.text)) }
{
    let found = inspect::<PeerSequence>(alloc, bytes)?;
    if found.keep == 0 && found.records.is_empty() {
        drop(found);
        return Err(CommandError::Store(StoreError::BadMagic));
    }
    if !are_all(ids, chosen_id(&found.document, ids)) {
        drop(found);
        return Err(CommandError::Doc(DocError::OtherDocument));
    }
    rescued_journal(alloc, found, bytes.len() as u64, more, ids)
}

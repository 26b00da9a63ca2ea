//! Calls that make, edit and read documents.

use crate::crowds::firsts;
use crate::edits::{Request, name_last, request_of};
use crate::fault::{Fault, answer_ok, refusal};
use crate::lists::range;
use crate::literals::{actor, byte, text};
use crate::printing::{in_quotes, names, names_of, put_id};
use crate::shelf::Shelf;
use crate::splice::lend_splices;
use crate::words::Words;
use std::alloc::Global;
use tp_change::Change;
use tp_document::{Cursor, DocError, Document};
use tp_opid::{Actor, DocId, Hash};
use tp_rga::Sequence;

/// The identifier that is the byte sixteen times.
pub fn document_id(word: &str) -> Result<DocId, Fault> {
    Ok(DocId([byte(word)?; 16]))
}

// `document NAME [BYTE]`: a document with no changes, whose identifier is that byte, 7 if none is given, sixteen times.
fn make<S: Sequence>(
    documents: &mut Shelf<Document<S>>,
    words: &mut Words,
) -> Result<String, Fault> {
    let alloc = documents.alloc();
    let name = words.next()?;
    let id = document_id(words.take().unwrap_or("7"))?;
    documents.put(name, Document::new(alloc, id))?;
    answer_ok(alloc)
}

/// Gives a document its name, or answers why there is none.
pub fn keep_document<S: Sequence>(
    documents: &mut Shelf<Document<S>>,
    name: &str,
    made: Result<Document<S>, DocError>,
) -> Result<String, Fault> {
    match made {
        Ok(document) => {
            documents.put(name, document)?;
            answer_ok(documents.alloc())
        }
        Err(error) => refusal(documents.alloc(), error),
    }
}

// `fork NEW DOCUMENT`.
fn fork<S: Sequence>(
    documents: &mut Shelf<Document<S>>,
    words: &mut Words,
) -> Result<String, Fault> {
    let name = words.next()?;
    let made = documents.get(words.next()?)?.fork();
    keep_document(documents, name, made)
}

// `branches DOCUMENT FROM..TO [TEXT]`: enters the first changes of the actors with the numbers from `FROM` up to, but
// without, `TO`. Each change inserts the text, of one character where none is given.
fn branches<S: Sequence>(
    documents: &mut Shelf<Document<S>>,
    words: &mut Words,
) -> Result<String, Fault> {
    let alloc = documents.alloc();
    let document = documents.get_mut(words.next()?)?;
    let (from, to) = range(words.next()?)?;
    let inserted = text(alloc, words.take().unwrap_or("\"x\""))?;
    let made = firsts(alloc, from, to, inserted.as_str())?;
    match document.apply(made) {
        Ok(_) => answer_ok(alloc),
        Err(error) => refusal(alloc, error),
    }
}

fn edit_asked<S: Sequence>(
    alloc: Global,
    document: &mut Document<S>,
    actor: Actor,
    asked: &Request,
) -> Result<Result<Option<Hash>, DocError>, Fault> {
    let splices = lend_splices(alloc, &asked.splices)?;
    Ok(document.edit(actor, &splices, asked.time, asked.message.as_str()))
}

// `ACTOR [as=NAME] ..`: `ok` where a change was entered, `nothing` where none was asked for.
fn edit<S: Sequence>(
    changes: &mut Shelf<Change>,
    document: &mut Document<S>,
    words: &mut Words,
) -> Result<String, Fault> {
    let alloc = changes.alloc();
    let actor = actor(words.next()?)?;
    let asked = request_of(alloc, words)?;
    match edit_asked(alloc, document, actor, &asked)? {
        Ok(Some(_)) => name_last(changes, document.changes(), asked.name),
        Ok(None) => Ok(String::from_str(alloc, "nothing")?),
        Err(error) => refusal(alloc, error),
    }
}

fn edit_named<S: Sequence>(
    changes: &mut Shelf<Change>,
    documents: &mut Shelf<Document<S>>,
    words: &mut Words,
) -> Result<String, Fault> {
    edit(changes, documents.get_mut(words.next()?)?, words)
}

/// Makes a call that makes or edits a document: `document NAME [BYTE]`, `fork NEW DOCUMENT`,
/// `branches DOCUMENT FROM..TO [TEXT]`, `edit DOCUMENT ACTOR ..`; `None` where the word is none of these.
pub fn call_on_documents<S: Sequence>(
    changes: &mut Shelf<Change>,
    documents: &mut Shelf<Document<S>>,
    word: &str,
    words: &mut Words,
) -> Option<Result<String, Fault>> {
    Some(match word {
        "document" => make(documents, words),
        "fork" => fork(documents, words),
        "branches" => branches(documents, words),
        "edit" => edit_named(changes, documents, words),
        _ => return None,
    })
}

/// Gives a cursor its name, and answers the element that it marks, or why there is none.
pub fn keep_cursor(
    cursors: &mut Shelf<Cursor>,
    name: &str,
    made: Result<Cursor, DocError>,
) -> Result<String, Fault> {
    match made {
        Ok(cursor) => {
            let mut out = String::new(cursors.alloc());
            put_id(&mut out, &cursor.element)?;
            cursors.put(name, cursor)?;
            Ok(out)
        }
        Err(error) => refusal(cursors.alloc(), error),
    }
}

/// Where a cursor is, or the refusal.
pub fn answer_position(alloc: Global, answer: Result<usize, DocError>) -> Result<String, Fault> {
    match answer {
        Ok(at) => Ok(format!(in alloc; "{at}")?),
        Err(error) => refusal(alloc, error),
    }
}

/// A text that was read, in quotes, or the refusal.
pub fn answer_text(alloc: Global, answer: Result<String, DocError>) -> Result<String, Fault> {
    match answer {
        Ok(text) => in_quotes(alloc, text.as_str()),
        Err(error) => refusal(alloc, error),
    }
}

/// The text of a document, in quotes, or the refusal.
pub fn text_of<S: Sequence>(alloc: Global, document: &Document<S>) -> Result<String, Fault> {
    answer_text(alloc, document.text())
}

/// What a document has: its `text`, `heads`, `changes` or what is `pending`; `None` where the word is none of these.
pub fn read_document<S: Sequence>(
    changes: &Shelf<Change>,
    document: &Document<S>,
    word: &str,
) -> Option<Result<String, Fault>> {
    Some(match word {
        "text" => text_of(changes.alloc(), document),
        "heads" => names(changes, document.heads()),
        "changes" => names_of(changes, document.changes()),
        "pending" => names_of(changes, document.pending()),
        _ => return None,
    })
}

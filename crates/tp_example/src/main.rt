//! The example of the README: two people write in one text, each alone, and merge.
#![tactic(auto)]

use tp_textdoc::{Actor, DocError, DocId, Document, Splice, TextDocument};

const ANN: Actor = Actor([1; 16]);

const BEN: Actor = Actor([2; 16]);

// Deletes `del` characters from `at` on, and inserts a text there.
fn write(
    doc: &mut TextDocument,
    who: Actor,
    at: usize,
    del: usize,
    text: &str,
) -> Result<(), DocError> {
    doc.edit(who, &[Splice { at, del, text }], 0, "")?;
    Ok(())
}

// Each writes alone; then each takes what the other has.
fn write_apart(ann: &mut TextDocument, ben: &mut TextDocument) -> Result<(), DocError> {
    write(ann, ANN, 5, 0, ",")?;
    write(ben, BEN, 6, 5, "Ann!")?;
    ann.merge(ben)?;
    ben.merge(ann)?;
    Ok(())
}

// What both have in the end, and the text as it was when just one change was there.
fn show(rt: &impl Print, ann: &TextDocument, ben: &TextDocument) -> anyhow::Result<()> {
    println!(rt; "{} {}", ann.text()?, ben.text()?)?;
    if let Some(first) = ann.changes().first() {
        println!(rt; "{}", ann.text_at(&[first.hash()])?)?;
    }
    Ok(())
}

// Ann begins, and Ben goes on from a copy of hers.
fn write_together(rt: &impl Print, ann: &mut TextDocument) -> anyhow::Result<()> {
    write(ann, ANN, 0, 0, "Hello world")?;
    let mut ben = ann.fork()?;
    let written = write_apart(ann, &mut ben);
    let shown = show(rt, ann, &ben);
    drop(ben);
    written?;
    shown
}

fn main(rt: HostRuntime) -> anyhow::Result<()> {
    let mut ann: TextDocument = Document::new(rt.alloc(), DocId([7; 16]));
    write_together(&rt, &mut ann)
}

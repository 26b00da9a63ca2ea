//! Many authors write at one place of a text at once. What they wrote is merged, and reaches another one in any order,
//! some of it twice.

use crate::author::Author;
use crate::chance::Chance;
use crate::digest::Digest;
use crate::peers::{ID, actor_of};
use crate::size::Size;
use anyhow::ensure;
use std::alloc::Global;
use tp_change::Change;
use tp_document::Document;
use tp_opid::{Actor, Hash};
use tp_posindex::BlockSequence;

type Doc = Document<BlockSequence>;

// How many edits the text that all begin with has.
const BEGUN: usize = 8_000;

// How many authors there are, how often they write and meet, and how many edits each makes before they do.
const AUTHORS: usize = 16;

const ROUNDS: usize = 3;

const EDITS: usize = 450;

// How many changes come at once.
const BATCH: usize = 700;

// `edits` edits of an author.
fn write(
    alloc: Global,
    document: &mut Doc,
    actor: Actor,
    author: &mut Author,
    chance: &mut Chance,
    edits: usize,
) -> anyhow::Result<()> {
    for _ in 0..edits {
        let typed = author.next(alloc, chance, document.len())?;
        document.edit(actor, &[typed.splice()], 0, "")?;
    }
    Ok(())
}

// Puts the document's text and heads into the digest.
fn read(document: &Doc, digest: &mut Digest) -> anyhow::Result<()> {
    digest.text(document.text()?.as_str());
    digest.hashes(document.heads());
    Ok(())
}

// A copy for each author.
fn copies(alloc: Global, begun: &Doc) -> anyhow::Result<Vec<Doc>> {
    let mut documents = Vec::new(alloc);
    for _ in 0..AUTHORS {
        documents.push(begun.fork()?)?;
    }
    Ok(documents)
}

// Each author writes, all at one place.
fn write_all(
    alloc: Global,
    documents: &mut Vec<Doc>,
    chance: &mut Chance,
    place: usize,
    edits: usize,
) -> anyhow::Result<()> {
    let mut number = 10;
    for document in documents.iter_mut() {
        let mut author = Author::at(place, 20);
        write(
            alloc,
            document,
            actor_of(number),
            &mut author,
            chance,
            edits,
        )?;
        number = number.saturating_add(1);
    }
    Ok(())
}

// Merges what each has.
fn merge_all(into: &mut Doc, documents: &[Doc], digest: &mut Digest) -> anyhow::Result<()> {
    for document in documents {
        let outcome = into.merge(document)?;
        digest.number(outcome.applied.len());
    }
    Ok(())
}

// Each takes what was merged.
fn take_all(documents: &mut Vec<Doc>, merged: &Doc, digest: &mut Digest) -> anyhow::Result<()> {
    for document in documents.iter_mut() {
        let outcome = document.merge(merged)?;
        digest.number(outcome.applied.len());
    }
    Ok(())
}

// Copies of the changes that another one lacks whose heads these are.
fn news(alloc: Global, document: &Doc, heads: &[Hash]) -> anyhow::Result<Vec<Change>> {
    let mut changes = Vec::new(alloc);
    for change in document.changes_since(heads)?.as_slice() {
        changes.push(change.copy()?)?;
    }
    Ok(changes)
}

// Puts the changes into an order that chance picks.
fn shuffle(changes: &mut [Change], chance: &mut Chance) {
    for last in 1..changes.len() {
        changes.swap(chance.below(last) % last, last);
    }
}

// The changes in an order that chance picks, and some of them twice.
fn shuffled_batch(
    alloc: Global,
    changes: &[Change],
    chance: &mut Chance,
) -> anyhow::Result<Vec<Change>> {
    let mut batch = Vec::new(alloc);
    for change in changes {
        batch.push(change.copy()?)?;
        if chance.below(20) == 0 {
            batch.push(change.copy()?)?;
        }
    }
    shuffle(batch.as_mut_slice(), chance);
    Ok(batch)
}

// Brings the changes to the document, a batch at a time, each in an order that chance picks.
fn bring(
    alloc: Global,
    document: &mut Doc,
    changes: &[Change],
    chance: &mut Chance,
    digest: &mut Digest,
) -> anyhow::Result<()> {
    for batch in changes.chunks(BATCH) {
        let batch = shuffled_batch(alloc, batch, chance)?;
        let outcome = document.apply(batch)?;
        digest.number(outcome.applied.len());
        digest.number(outcome.refused.len());
    }
    Ok(())
}

// All write at one place, and what they wrote reaches two documents, by merges and in any order.
fn write_and_meet(
    alloc: Global,
    documents: &mut Vec<Doc>,
    merged: &mut Doc,
    brought: &mut Doc,
    chance: &mut Chance,
    edits: usize,
    digest: &mut Digest,
) -> anyhow::Result<()> {
    let place = chance.below(merged.len());
    write_all(alloc, documents, chance, place, edits)?;
    merge_all(merged, documents.as_slice(), digest)?;
    let changes = news(alloc, merged, brought.heads())?;
    bring(alloc, brought, changes.as_slice(), chance, digest)?;
    take_all(documents, merged, digest)?;
    read(merged, digest)?;
    ensure!(merged.len() == brought.len(), "characters are missing");
    read(brought, digest)
}

// The rounds of all.
fn go_through(
    alloc: Global,
    documents: &mut Vec<Doc>,
    merged: &mut Doc,
    brought: &mut Doc,
    size: Size,
    digest: &mut Digest,
) -> anyhow::Result<()> {
    let mut chance = Chance::new(size.seed);
    for _ in 0..ROUNDS {
        let edits = size.share(EDITS);
        write_and_meet(
            alloc,
            documents,
            merged,
            brought,
            &mut chance,
            edits,
            digest,
        )?;
    }
    Ok(())
}

// The rounds, on copies of the text that all begin with.
fn run_on(alloc: Global, begun: &mut Doc, size: Size, digest: &mut Digest) -> anyhow::Result<()> {
    let mut chance = Chance::new(size.seed ^ 1);
    let mut author = Author::at(0, 2_000);
    let edits = size.share(BEGUN);
    write(alloc, begun, actor_of(1), &mut author, &mut chance, edits)?;
    let mut documents = copies(alloc, begun)?;
    let mut brought = begun.fork()?;
    let gone = go_through(alloc, &mut documents, begun, &mut brought, size, digest);
    drop(documents);
    drop(brought);
    gone
}

/// Writes at one place, merges, and brings changes in any order.
pub fn run(alloc: Global, size: Size, digest: &mut Digest) -> anyhow::Result<()> {
    let mut begun = Document::new(alloc, ID);
    let gone = run_on(alloc, &mut begun, size, digest);
    drop(begun);
    gone
}

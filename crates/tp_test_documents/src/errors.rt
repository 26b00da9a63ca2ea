//! Calls on the numbers and names of errors.

use std::alloc::Global;
use std::fmt::Display;
use tp_document::{DocError, KeepError};
use tp_graph::GraphError;
use tp_receive::ReceiveError;
use tp_test_runner::{Fault, Words, put_error};

// Adds the name of an error.
fn put_name(out: &mut String, error: impl Display + Drop) -> Result<(), Fault> {
    let comma = if out.is_empty() { "" } else { ", " };
    write!(out, "{comma}{error}")?;
    Ok(())
}

fn of_graphs(out: &mut String) -> Result<(), Fault> {
    for error in [
        GraphError::Known,
        GraphError::MissingDeps,
        GraphError::BadSeq,
        GraphError::BadStart,
        GraphError::BadReference,
        GraphError::SeqClash,
        GraphError::UnknownHead,
        GraphError::Full,
        GraphError::OutOfMemory,
    ] {
        put_error(out, error.code(), error)?;
    }
    Ok(())
}

fn of_documents(out: &mut String) -> Result<(), Fault> {
    for error in [
        DocError::OutOfRange,
        DocError::CounterLimit,
        DocError::TooManyOps,
        DocError::TooManyHeads,
        DocError::UnknownHead,
        DocError::UnknownElement,
        DocError::PendingFull,
        DocError::HashTaken,
        DocError::OutOfMemory,
        DocError::OtherDocument,
        DocError::TooLong,
        DocError::Full,
        DocError::NotKept,
    ] {
        put_error(out, error.code(), error)?;
    }
    Ok(())
}

// The names alone, of errors that have no number.
fn of_receiving(out: &mut String) -> Result<(), Fault> {
    let received = [
        ReceiveError::PendingFull,
        ReceiveError::NotKept,
        ReceiveError::OutOfMemory,
    ];
    for error in received {
        put_name(out, error)?;
    }
    for error in [KeepError::NotKept, KeepError::OutOfMemory] {
        put_name(out, error)?;
    }
    Ok(())
}

/// `errors WHAT`: the numbers and names of what may be refused.
pub fn call(alloc: Global, words: &mut Words) -> Result<String, Fault> {
    let mut out = String::new(alloc);
    match words.next()? {
        "graph" => of_graphs(&mut out)?,
        "document" => of_documents(&mut out)?,
        "receive" => of_receiving(&mut out)?,
        _ => return Err(Fault::Row("no such errors")),
    }
    Ok(out)
}

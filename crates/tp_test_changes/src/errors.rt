//! Calls on the numbers and names of errors.

use std::alloc::Global;
use tp_change::ChangeError;
use tp_frame::FrameError;
use tp_opid::HexError;
use tp_sync::SyncError;
use tp_test_runner::{Fault, Words, put_error};
use tp_textpeer::ShowFault;

fn of_identifiers(out: &mut String) -> Result<(), Fault> {
    for error in [HexError::BadHex, HexError::OutOfMemory] {
        put_error(out, error.code(), error)?;
    }
    Ok(())
}

fn of_changes(out: &mut String) -> Result<(), Fault> {
    for error in [
        ChangeError::Version,
        ChangeError::Short,
        ChangeError::Trailing,
        ChangeError::ZeroSeqOrStart,
        ChangeError::BadUtf8,
        ChangeError::DepsOrder,
        ChangeError::NoRecords,
        ChangeError::BadTag,
        ChangeError::EmptyRun,
        ChangeError::Limit,
        ChangeError::OutOfMemory,
        ChangeError::NoRun,
    ] {
        put_error(out, error.code(), error)?;
    }
    Ok(())
}

fn of_logs(out: &mut String) -> Result<(), Fault> {
    for fault in [
        ShowFault::NotChain,
        ShowFault::BadSeq,
        ShowFault::BadStart,
        ShowFault::BadReference,
        ShowFault::Change(ChangeError::Short),
        ShowFault::OutOfMemory,
        ShowFault::Io,
    ] {
        put_error(out, fault.code(), fault)?;
    }
    Ok(())
}

fn of_syncing(out: &mut String) -> Result<(), Fault> {
    for error in [
        SyncError::BadMessage,
        SyncError::BadChange,
        SyncError::TooManyHeads,
        SyncError::PendingFull,
        SyncError::OutOfMemory,
        SyncError::OtherDocument,
        SyncError::NotKept,
    ] {
        put_error(out, error.code(), error)?;
    }
    Ok(())
}

fn of_frames(out: &mut String) -> Result<(), Fault> {
    for error in [
        FrameError::TooLong,
        FrameError::BadKind,
        FrameError::BadHello,
        FrameError::OutOfMemory,
    ] {
        put_error(out, error.code(), error)?;
    }
    Ok(())
}

/// `errors WHAT`: the numbers and names of what may be refused.
pub fn call(alloc: Global, words: &mut Words) -> Result<String, Fault> {
    let mut out = String::new(alloc);
    match words.next()? {
        "identifier" => of_identifiers(&mut out)?,
        "change" => of_changes(&mut out)?,
        "log" => of_logs(&mut out)?,
        "sync" => of_syncing(&mut out)?,
        "frame" => of_frames(&mut out)?,
        _ => return Err(Fault::Row("no such errors")),
    }
    Ok(out)
}

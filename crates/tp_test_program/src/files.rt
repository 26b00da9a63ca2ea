//! Calls that make files and look at them.

use crate::folder::fault;
use crate::paths::inside;
use std::fs;
use std::fs::Permissions;
use std::os::unix::fs::{PermissionsExt, symlink};
use std::rt::Files;
use tp_test_runner::{Fault, Words, answer_ok, bytes_of_words, derive_bytes, number};

// All bytes of a file.
fn read<R: Files + AllocGlobal>(rt: &R, name: &str) -> Result<Vec<u8>, Fault> {
    let path = inside(rt.alloc(), name)?;
    match fs::read(rt, path.as_str()) {
        Ok(all) => Ok(all),
        Err(error) => Err(fault(&error)),
    }
}

// Makes a file of these bytes.
fn write<R: Files + AllocGlobal>(rt: &R, name: &str, all: &[u8]) -> Result<String, Fault> {
    let path = inside(rt.alloc(), name)?;
    match fs::write(rt, path.as_str(), all) {
        Ok(()) => answer_ok(rt.alloc()),
        Err(error) => Err(fault(&error)),
    }
}

// `folder NAME`.
fn folder<R: Files + AllocGlobal>(rt: &R, name: &str) -> Result<String, Fault> {
    let path = inside(rt.alloc(), name)?;
    match fs::create_dir(rt, path.as_str()) {
        Ok(()) => answer_ok(rt.alloc()),
        Err(error) => Err(fault(&error)),
    }
}

// `file NAME HEX..`, `copy NAME OF`, `cut NAME OF LEN`, `alter NAME OF AT HEX`, `beyond NAME OF HEX..`.
fn bytes_asked<R: Files + AllocGlobal>(
    rt: &R,
    word: &str,
    words: &mut Words,
) -> Result<Vec<u8>, Fault> {
    let alloc = rt.alloc();
    if word == "file" {
        return bytes_of_words(alloc, words.rest());
    }
    let whole = read(rt, words.next()?)?;
    derive_bytes(alloc, &whole, word, words)
}

fn make<R: Files + AllocGlobal>(rt: &R, word: &str, words: &mut Words) -> Result<String, Fault> {
    let name = words.next()?;
    let all = bytes_asked(rt, word, words)?;
    write(rt, name, &all)
}

// `len NAME`.
fn len<R: Files + AllocGlobal>(rt: &R, name: &str) -> Result<String, Fault> {
    let len = read(rt, name)?.len();
    Ok(format!(in rt.alloc(); "{len} bytes")?)
}

// `same NAME OTHER`: whether two files have the same bytes.
fn same<R: Files + AllocGlobal>(rt: &R, name: &str, other: &str) -> Result<String, Fault> {
    if read(rt, name)?.as_slice() == read(rt, other)?.as_slice() {
        answer_ok(rt.alloc())
    } else {
        Ok(String::from_str(rt.alloc(), "no")?)
    }
}

// `link NAME TARGET`: a link to the file, which is beside it or nowhere.
fn link<R: Files + AllocGlobal>(rt: &R, name: &str, target: &str) -> Result<String, Fault> {
    let path = inside(rt.alloc(), name)?;
    match symlink(rt, target, path.as_str()) {
        Ok(()) => answer_ok(rt.alloc()),
        Err(error) => Err(fault(&error)),
    }
}

// `leads NAME`: where a link leads.
fn leads<R: Files + AllocGlobal>(rt: &R, name: &str) -> Result<String, Fault> {
    let path = inside(rt.alloc(), name)?;
    match fs::read_link(rt, path.as_str()) {
        Ok(target) => Ok(String::from_str(rt.alloc(), target.as_str())?),
        Err(error) => Err(fault(&error)),
    }
}

// `mode NAME NUMBER`: gives the file the mode.
fn set_mode<R: Files + AllocGlobal>(rt: &R, name: &str, mode: &str) -> Result<String, Fault> {
    let path = inside(rt.alloc(), name)?;
    let mode = u32::try_from(number(mode)?)
        .ok()
        .ok_or(Fault::Row("no mode"))?;
    let mode = Permissions::from_mode(mode);
    match fs::set_permissions(rt, path.as_str(), mode) {
        Ok(()) => answer_ok(rt.alloc()),
        Err(error) => Err(fault(&error)),
    }
}

// `mode_of NAME`.
fn mode_of<R: Files + AllocGlobal>(rt: &R, name: &str) -> Result<String, Fault> {
    let path = inside(rt.alloc(), name)?;
    match fs::metadata(rt, path.as_str()) {
        Ok(found) => {
            let mode = found.permissions().mode() % 512;
            Ok(format!(in rt.alloc(); "mode {mode}")?)
        }
        Err(error) => Err(fault(&error)),
    }
}

/// Makes a call on files; `None` where the word is none of these.
pub fn call<R: Files + AllocGlobal>(
    rt: &R,
    word: &str,
    words: &mut Words,
) -> Option<Result<String, Fault>> {
    match word {
        "file" | "copy" | "cut" | "alter" | "behind" => Some(make(rt, word, words)),
        "folder" | "len" | "same" | "link" | "leads" | "mode" | "mode_of" => {
            Some(look(rt, word, words))
        }
        _ => None,
    }
}

fn look<R: Files + AllocGlobal>(rt: &R, word: &str, words: &mut Words) -> Result<String, Fault> {
    let name = words.next()?;
    match word {
        "folder" => folder(rt, name),
        "len" => len(rt, name),
        "link" => link(rt, name, words.next()?),
        "leads" => leads(rt, name),
        "mode" => set_mode(rt, name, words.next()?),
        "mode_of" => mode_of(rt, name),
        _ => same(rt, name, words.next()?),
    }
}

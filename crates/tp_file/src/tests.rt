//! An open file whose path leads elsewhere.

use crate::lock::Lockable;
use crate::place::Place;
use std::fs::OpenOptions;
use std::io::Write;
use std::rt::Files;
use std::test::Fail;
use std::{fs, io};

// Whether it was kept: with 3 bytes, of 4, moved, moved back, replaced, and removed.
fn is_kept_each<R: Files + AllocGlobal>(rt: &R, path: &str, other: &str) -> io::Result<[bool; 6]>
where
    R::File: Lockable,
{
    let mut file = OpenOptions::new()
        .read(true)
        .append(true)
        .create(true)
        .open(rt, path)?;
    file.write_all(b"abc")?;
    let place = file.place(rt.alloc())?;
    let held = place.is_kept(3);
    let cut = place.is_kept(4);
    fs::rename(rt, path, other)?;
    let moved = place.is_kept(3);
    fs::rename(rt, other, path)?;
    let back = place.is_kept(3);
    fs::write(rt, other, b"abcd")?;
    fs::rename(rt, other, path)?;
    let replaced = place.is_kept(3);
    fs::remove_file(rt, path)?;
    Ok([held, cut, moved, back, replaced, place.is_kept(3)])
}

#[test]
fn places(rt: HostRuntime) -> Result<(), Fail> {
    let kept = is_kept_each(&rt, "place-of-a-journal", "place-of-another").unwrap_or([false; 6]);
    assert_eq!(rt; kept, [true, false, false, true, false, false]);
    Ok(())
}

//! Where the files beside NOTE are, and how long a file has to be quiet.

use crate::quiet::patience;
use crate::{Paths, mirror};
use rand_chacha::ChaCha20Rng;
use rand_core::SeedableRng;
use std::fs;
use std::rt::Files;
use std::test::Fail;
use std::time::Clock;
use tp_commands::{CommandError, Metadata, begin, raw_text, update};
use tp_disk::{Disk, Opened};
use tp_journal::Lockable;
use tp_mirror::{Name, Source};
use tp_opid::{Actor, DocId};

#[test]
fn files_are_beside_the_note(rt: HostRuntime) -> Result<(), Fail> {
    let alloc = rt.alloc();
    let paths = Paths::new(alloc, "notes", "a/notes.txt")?;
    assert_eq!(rt; paths.state.as_str(), "a/notes.txt.mirror");
    assert_eq!(rt; paths.part.as_str(), "a/notes.txt.mirror-part");
    assert_eq!(rt; paths.before.as_str(), "a/notes.txt.before");
    let moved = paths.of_source(alloc, Source::Away(Name([0xab; 16])))?;
    assert_eq!(rt;
        moved.as_str(),
        "a/notes.txt.mirror-abababababababababababababababab"
    );
    assert_eq!(rt;
        paths.of_source(alloc, Source::Note)?.as_str(),
        "a/notes.txt"
    );
    Ok(())
}

#[test]
fn a_text_that_shrank_waits_longer(rt: HostRuntime) -> Result<(), Fail> {
    assert_eq!(rt; patience(49, 100), 10_000_000_000);
    assert_eq!(rt; patience(50, 100), 1_000_000_000);
    assert_eq!(rt; patience(0, 1), 1_000_000_000);
    Ok(())
}

// The journal at the path, with its text made this one.
fn rewrite<D: Disk + AllocGlobal>(
    rt: &D,
    file: &str,
    text: &str,
    actor: u8,
) -> Result<(), CommandError> {
    let Opened {
        journal,
        recovered,
        cut: _,
    } = rt.journal(file, 0)?;
    let by = Metadata {
        actor: Actor([actor; 16]),
        time: 0,
        message: "",
    };
    let updated = update(rt.alloc(), (journal, Ok(recovered)), &[], text, &by);
    let (mut journal, _) = updated.map_err(|e| e.error)?;
    rt.leave(file, &mut journal)
}

// The text of the journal at the path.
fn text_of<D: Disk>(rt: &D, file: &str) -> Result<String, CommandError> {
    raw_text(rt.recover(file)?, &[])
}

// Another text in NOTE.
fn save<R: Files>(rt: &R, note: &str, text: &str) -> Result<(), CommandError> {
    Ok(fs::write(rt, note, text.as_bytes())?)
}

// Whether all is in step, and NOTE and the journal afterwards.
fn step_of<R: Files + Clock + AllocGlobal>(
    rt: &R,
    paths: &Paths,
    random: &mut ChaCha20Rng,
) -> Result<(bool, String, String), CommandError>
where
    R::File: Lockable,
{
    let mut cut = None;
    let done = mirror(rt, paths, None, random, 0, &mut cut);
    let note = fs::read_to_string(rt, paths.note.as_str())?;
    Ok((done.is_ok(), note, text_of(rt, paths.file.as_str())?))
}

// A text file that is taken in, changed on both sides, and then in the journal alone.
fn in_step<R: Files + Clock + AllocGlobal>(
    rt: &R,
) -> Result<[(bool, String, String); 3], CommandError>
where
    R::File: Lockable,
{
    let alloc = rt.alloc();
    let (file, note) = ("mirror-journal", "mirror-note");
    begin(
        alloc,
        rt.make_journal(file, 0)?,
        DocId([7; 16]),
        Actor([1; 16]),
    )?;
    save(rt, note, "one\ntwo\n")?;
    let paths = Paths::new(alloc, file, note)?;
    let mut random = ChaCha20Rng::from_seed([3; 32]);
    let first = step_of(rt, &paths, &mut random)?;
    rewrite(rt, file, "zero\none\ntwo\n", 2)?;
    save(rt, note, "one\n2\n")?;
    let second = step_of(rt, &paths, &mut random)?;
    rewrite(rt, file, "zero\none\n2\nthree\n", 4)?;
    let third = step_of(rt, &paths, &mut random)?;
    Ok([first, second, third])
}

#[test]
fn a_note_and_a_journal_are_in_step(rt: HostRuntime) -> Result<(), Fail> {
    match in_step(&rt) {
        Ok([first, second, third]) => {
            assert_eq!(rt; first.0, true);
            assert_eq!(rt; first.1.as_str(), "one\ntwo\n");
            assert_eq!(rt; first.2.as_str(), "one\ntwo\n");
            assert_eq!(rt; second.0, true);
            assert_eq!(rt; second.1.as_str(), "zero\none\n2\n");
            assert_eq!(rt; second.2.as_str(), "zero\none\n2\n");
            assert_eq!(rt; third.1.as_str(), "zero\none\n2\nthree\n");
        }
        Err(_) => assert_eq!(rt; 1, 0),
    }
    Ok(())
}

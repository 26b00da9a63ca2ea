//! Saved files against bytes that were laid out by hand. The digests are those of Python's hashlib.

use std::alloc::{AllocError, Global};
use std::test::Fail;
use tp_document::Document;
use tp_graph::GraphError;
use tp_rga::PlainSequence;
use tp_store::{StoreError, load, save};

/// No change.
const EMPTY: [u8; 60] = *b"\
    \x52\x47\x41\x54\x45\x58\x54\x31\x07\x07\x07\x07\x07\x07\x07\x07\x07\x07\x07\x07\x07\x07\x07\x07\
    \x00\x00\x00\x00\xa6\x28\x8e\x56\xc0\xb5\xce\xf6\x04\x79\x46\x9c\xfc\x99\x3f\x5d\x03\xef\x13\x92\
    \xa7\x5e\x3e\xf6\x24\x8d\x0e\xfc\x18\xf2\x59\xe3";

/// One change, which inserts `abc`.
const ABC: [u8; 122] = *b"\
    \x52\x47\x41\x54\x45\x58\x54\x31\x07\x07\x07\x07\x07\x07\x07\x07\x07\x07\x07\x07\x07\x07\x07\x07\
    \x00\x00\x00\x01\x00\x00\x00\x3a\x01\x00\x00\x00\x00\x00\x00\x00\x00\x00\x00\x00\x00\x00\x00\x00\
    \x01\x00\x00\x00\x00\x00\x00\x00\x01\x00\x00\x00\x00\x00\x00\x00\x01\x00\x00\x00\x00\x00\x00\x00\
    \x00\x00\x00\x00\x00\x00\x00\x00\x01\x01\x00\x00\x00\x00\x03\x61\x62\x63\x3a\x2e\x5a\x0f\xe3\x6d\
    \xe5\x68\xd7\xa6\x55\x26\x9f\xb9\xd2\xe0\x12\x30\xb8\x15\x74\x49\x9c\x45\x9e\xf0\x19\xc4\xb2\x4e\
    \xef\x81";

/// The saved file with 2 as the version of the change.
const NEWER: [u8; 122] = *b"\
    \x52\x47\x41\x54\x45\x58\x54\x31\x07\x07\x07\x07\x07\x07\x07\x07\x07\x07\x07\x07\x07\x07\x07\x07\
    \x00\x00\x00\x01\x00\x00\x00\x3a\x02\x00\x00\x00\x00\x00\x00\x00\x00\x00\x00\x00\x00\x00\x00\x00\
    \x01\x00\x00\x00\x00\x00\x00\x00\x01\x00\x00\x00\x00\x00\x00\x00\x01\x00\x00\x00\x00\x00\x00\x00\
    \x00\x00\x00\x00\x00\x00\x00\x00\x01\x01\x00\x00\x00\x00\x03\x61\x62\x63\x96\xc5\xc1\x0e\x82\xb1\
    \x0f\xa3\x58\xdf\x20\x2e\x6f\x22\xdb\x27\xef\xcd\x1f\x2a\xc9\x34\xec\x38\xcd\xd0\x76\x9c\xb7\x89\
    \x49\x08";

/// The saved file with 2 as the start of the change.
const LATE: [u8; 122] = *b"\
    \x52\x47\x41\x54\x45\x58\x54\x31\x07\x07\x07\x07\x07\x07\x07\x07\x07\x07\x07\x07\x07\x07\x07\x07\
    \x00\x00\x00\x01\x00\x00\x00\x3a\x01\x00\x00\x00\x00\x00\x00\x00\x00\x00\x00\x00\x00\x00\x00\x00\
    \x01\x00\x00\x00\x00\x00\x00\x00\x01\x00\x00\x00\x00\x00\x00\x00\x02\x00\x00\x00\x00\x00\x00\x00\
    \x00\x00\x00\x00\x00\x00\x00\x00\x01\x01\x00\x00\x00\x00\x03\x61\x62\x63\x5b\x8c\xc8\x6c\x1f\x5f\
    \x7b\x9e\x25\x88\x35\x04\x4b\xbd\x94\xbe\x4d\xaa\x26\x79\xe6\x0f\x60\x21\x70\xc5\x4b\xea\xe8\x68\
    \xd8\xa1";

/// The change twice.
const TWICE: [u8; 184] = *b"\
    \x52\x47\x41\x54\x45\x58\x54\x31\x07\x07\x07\x07\x07\x07\x07\x07\x07\x07\x07\x07\x07\x07\x07\x07\
    \x00\x00\x00\x02\x00\x00\x00\x3a\x01\x00\x00\x00\x00\x00\x00\x00\x00\x00\x00\x00\x00\x00\x00\x00\
    \x01\x00\x00\x00\x00\x00\x00\x00\x01\x00\x00\x00\x00\x00\x00\x00\x01\x00\x00\x00\x00\x00\x00\x00\
    \x00\x00\x00\x00\x00\x00\x00\x00\x01\x01\x00\x00\x00\x00\x03\x61\x62\x63\x00\x00\x00\x3a\x01\x00\
    \x00\x00\x00\x00\x00\x00\x00\x00\x00\x00\x00\x00\x00\x00\x01\x00\x00\x00\x00\x00\x00\x00\x01\x00\
    \x00\x00\x00\x00\x00\x00\x01\x00\x00\x00\x00\x00\x00\x00\x00\x00\x00\x00\x00\x00\x00\x00\x01\x01\
    \x00\x00\x00\x00\x03\x61\x62\x63\xf6\x63\x50\x6a\x15\x54\xe7\xc7\xe4\x37\x61\xc7\xc9\xaf\x9d\xb8\
    \xcd\x2b\x9b\xa5\x88\xd9\xc0\x9b\xc3\x8b\xcd\xd7\x1b\xb7\x58\xc5";

/// What becomes of bytes before they are loaded.
#[derive(Clone, Copy)]
enum Damage {
    None,
    /// This many are left.
    Cut(usize),
    /// The one at the offset is another one.
    Byte(usize, u8),
}

/// Bytes, and the text that they load as, or their refusal.
type Row = (&'static [u8], Damage, Result<&'static str, StoreError>);

const ROWS: [Row; 18] = [
    (&EMPTY, Damage::None, Ok("")),
    (&ABC, Damage::None, Ok("abc")),
    (b"RGATEXT2", Damage::None, Err(StoreError::BadMagic)),
    (b"", Damage::None, Err(StoreError::Truncated)),
    (b"RGATEXT1", Damage::None, Err(StoreError::Truncated)),
    (&ABC, Damage::Cut(121), Err(StoreError::Truncated)),
    (&ABC, Damage::Cut(27), Err(StoreError::Truncated)),
    (&TWICE, Damage::Cut(122), Err(StoreError::Truncated)),
    (&NEWER, Damage::None, Err(StoreError::Damaged { at: 28 })),
    (
        &LATE,
        Damage::None,
        Err(StoreError::Refused(GraphError::BadStart)),
    ),
    (
        &TWICE,
        Damage::None,
        Err(StoreError::Refused(GraphError::Known)),
    ),
    (&ABC, Damage::Byte(0, 0), Err(StoreError::BadMagic)),
    (
        &ABC,
        Damage::Byte(28, 1),
        Err(StoreError::Damaged { at: 28 }),
    ),
    (
        &ABC,
        Damage::Byte(31, 0),
        Err(StoreError::Damaged { at: 28 }),
    ),
    (
        &ABC,
        Damage::Byte(31, 57),
        Err(StoreError::Damaged { at: 121 }),
    ),
    (&ABC, Damage::Byte(31, 59), Err(StoreError::Truncated)),
    (&ABC, Damage::Byte(32, 2), Err(StoreError::BadDigest)),
    (&ABC, Damage::Byte(121, 0), Err(StoreError::BadDigest)),
];

/// The bytes with their damage.
fn with_damage(alloc: Global, bytes: &[u8], damage: Damage) -> Result<Vec<u8>, AllocError> {
    let mut bytes = Vec::from_slice(alloc, bytes)?;
    match damage {
        Damage::None => {}
        Damage::Cut(len) => bytes.truncate(len),
        Damage::Byte(at, byte) => {
            if let Some(place) = bytes.get_mut(at) {
                *place = byte;
            }
        }
    }
    Ok(bytes)
}

/// Whether the document has the text, and is saved as just the bytes.
fn is_saved(
    alloc: Global,
    document: &Document<PlainSequence>,
    text: &str,
    bytes: &[u8],
) -> Result<bool, Fail> {
    let saved = save(alloc, document)?;
    Ok(saved.as_slice() == bytes && document.text()?.as_str() == text)
}

/// Whether the bytes load as is wanted.
fn is_wanted(alloc: Global, bytes: &[u8], wanted: Result<&str, StoreError>) -> Result<bool, Fail> {
    match load::<PlainSequence>(alloc, bytes) {
        Ok(document) => match wanted {
            Ok(text) => is_saved(alloc, &document, text, bytes),
            Err(_) => Ok(false),
        },
        Err(error) => Ok(wanted.err() == Some(error)),
    }
}

#[test]
fn loads_what_was_laid_out_by_hand(rt: HostRuntime) -> Result<(), Fail> {
    for (number, (bytes, damage, wanted)) in ROWS.iter().enumerate() {
        let bytes = with_damage(rt.alloc(), bytes, *damage)?;
        assert!(rt; is_wanted(rt.alloc(), &bytes, *wanted)?, "row {number}");
    }
    Ok(())
}

ghost use Rattle.std.specs.Prelude.{◌≡◌, ◌==◌, ◌≤◌, length, encode_utf8_all, IfOk, IsOk, IsTrue};
ghost use Rattle.std.specs.Str.{chars, all_scalars};
ghost use Rattle.std.specs.String.{string_bytes};
ghost use Rattle.tp_list.specs.Kept.{bytes_of};

use arrayvec::ArrayString;
use std::alloc::{AllocError, Global};
use std::marker::Model;

/// Where the bytes of a text are.
#[derive(Drop)]
enum Kept {
    // In the text itself.
    Short(ArrayString<16>),
    // In memory of their own.
    Long(String),
}

impl Kept {
    // The text, borrowed.
    fn as_str(&self) -> &str
        ensures { result.now ≡ bytes_of self.now }
    {
        match self {
            Kept::Short(text) => text.as_str(),
            Kept::Long(text) => text.as_str(),
        }
    }
}

/// A text that contracts see as the list of its characters (Unicode scalar values). Up to 16 bytes of UTF-8 lie in the
/// value itself; a longer one is a `String`.
#[derive(Drop)]
pub struct Text {
    kept: Kept,
}

impl Model for Text {
    ghost use Rattle.std.specs.Prelude.{List, ℕ};
    ghost use Rattle.std.specs.Str.{chars};
    ghost use Rattle.tp_list.specs.Kept.{bytes_of};

    ghost Value = { List ℕ };

    ghost view = { λ t. chars (bytes_of t.kept) };

    ghost use Rattle.tp_list.specs.Utf8.{IsEncodedText};

    ghost invariant = { λ t. IsEncodedText (bytes_of t.kept) };
}

impl Text {
    /// The characters of a `String`. It takes no memory; that of a short one is given back.
    pub fn new(string: String) -> Text
        ensures { result ≡ chars (string_bytes string) }
    {
        let kept = match ArrayString::from(string.as_str()) {
            Ok(short) => Kept::Short(short),
            Err(_) => Kept::Long(string),
        };
        let _utf8 = kept.as_str();
        Text { kept }
    }

    /// A copy of the text. It takes memory only where there are more than 16 bytes, and only then it may be refused.
    pub fn of(alloc: Global, text: &str) -> Result<Text, AllocError>
        ensures copied { IfOk result (λ copy. copy ≡ chars text.now) }
        ensures short { length text.now ≤ 16 → IsOk result }
    {
        let kept = match ArrayString::from(text) {
            Ok(short) => Kept::Short(short),
            Err(_) => Kept::Long(String::from_str(alloc, text)?),
        };
        let _utf8 = kept.as_str();
        Ok(Text { kept })
    }

    /// The text, borrowed.
    pub fn as_str(&self) -> &str
        ensures bytes { result.now ≡ encode_utf8_all self.now }
        ensures chars { chars result.now ≡ self.now }
        ensures scalars { IsTrue (all_scalars self.now) }
    {
        self.kept.as_str()
    }

    /// How many bytes of UTF-8 it has.
    pub fn byte_len(&self) -> usize
        ensures { result ≡ length (encode_utf8_all self.now) }
    {
        self.kept.as_str().len()
    }

    /// Whether it has no character.
    pub fn is_empty(&self) -> bool
        ensures { result ≡ (length self.now == 0) }
    {
        self.kept.as_str().is_empty()
    }
}

/// How many characters a text has. One pass.
pub fn char_count(text: &str) -> usize
    ensures count { result ≡ length (chars text.now) }
    ensures scalars { IsTrue (all_scalars (chars text.now)) }
{
    text.chars().count()
}

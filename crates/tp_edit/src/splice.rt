//! Splices of a text, and what they ask.

ghost use Rattle.std.specs.Prelude.{◌≡◌, ◌↔◌, IsTrue, length, min, true};
ghost use Rattle.std.specs.Str.{all_scalars};
ghost use Rattle.tp_edit.specs.Splices.{AllInRange, AllScalars, inserted_chars, total_count};

use tp_list::char_count;

/// One replacement in a visible text, as Automerge's `splice`: the `del` characters from `at` on go, and `text`
/// comes in their place. Positions and lengths count Unicode scalar values.
#[derive(Clone, Copy, Debug)]
pub struct Splice<'a> {
    /// How many characters are before it.
    pub at: usize,
    /// How many characters it deletes.
    pub del: usize,
    /// What it inserts, which may be empty.
    pub text: &'a str,
}

impl Splice<'_> {
    /// How many characters it inserts. One pass over its text.
    pub fn inserted_count(&self) -> usize
        ensures count { result ≡ length (inserted_chars self.now) }
        ensures scalars { IsTrue (all_scalars (inserted_chars self.now)) }
    {
        char_count(self.text)
    }
}

/// Whether each splice is within the text that the ones before it leave, where the first meets a text of `len`
/// characters: `at` is at most the length, and `del` at most what is left from there. One pass over the texts.
///
/// Texts that come and go again may be longer together than any number of `usize`, so the length is kept in `u128`.
pub fn in_range(splices: &[Splice], len: usize) -> bool
    ensures { IsTrue result ↔ AllInRange len splices.now }
{
    let mut length = len as u128;
    for splice in splices {
        if splice.at as u128 + splice.del as u128 > length {
            return false;
        }
        length = length - splice.del as u128 + splice.inserted_count() as u128;
    }
    true
}

/// How many operations the splices take: one for each deleted and one for each inserted character; `usize::MAX`
/// where they are more. One pass over the texts, which are of Unicode scalar values.
pub fn operation_count(splices: &[Splice]) -> usize
    ensures count { result ≡ min (total_count splices.now) usize.MAX }
    ensures scalars { AllScalars splices.now }
{
    let mut count: usize = 0;
    for splice in splices {
        count = count
            .saturating_add(splice.del)
            .saturating_add(splice.inserted_count());
    }
    count
}

/// Whether no splice deletes or inserts anything, so that the edit has no record.
pub fn asks_nothing(splices: &[Splice]) -> bool
    ensures { IsTrue result ↔ (total_count splices.now ≡ 0) }
{
    operation_count(splices) == 0
}

//! Heads by the names that marks gave them.

ghost use Rattle.std.specs.Prelude.{◌≡◌, None, bytes_eq, encode_utf8_all};
ghost use Rattle.std.specs.Option.{option_map};
ghost use Rattle.tp_simulate.specs.Marks.{latest};

use crate::mark::Mark;
use tp_opid::Hash;

// Whether the mark has the name.
fn is_named(mark: &Mark, name: &str) -> bool
    ensures { result ≡ bytes_eq (encode_utf8_all mark.now.name) name.now }
{
    mark.name.as_str() == name
}

/// The heads of the latest mark with the name. It goes over all marks.
pub(crate) fn heads_named<'a>(marks: &'a [Mark], name: &str) -> Option<&'a [Hash]>
    ensures { option_map (λ heads. heads.now) result ≡ latest name.now None marks.now }
{
    let mut found = None;
    for mark in marks {
        if is_named(mark, name) {
            found = Some(mark.heads.as_slice());
        }
    }
    found
}

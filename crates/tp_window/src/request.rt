//! What a page asks.

ghost use Rattle.tp_window.specs.Requests.{IsTypedSplice};

use serde::Deserialize;
use tp_edit::Splice;

/// One splice of an edit, as the page writes it. Positions and lengths count characters (Unicode scalar values).
#[derive(Debug, Drop, Deserialize)]
#[serde(deny_unknown_fields)]
pub struct TypedSplice {
    /// How many characters are before it.
    pub at: usize,
    /// How many characters it deletes.
    pub del: usize,
    /// What it inserts, which may be empty.
    pub text: String,
}

impl TypedSplice {
    /// The splice with a borrowed text, as an edit takes it. No memory.
    pub fn splice(&self) -> Splice<'_>
        ensures { IsTypedSplice self.now result }
    {
        Splice {
            at: self.at,
            del: self.del,
            text: self.text.as_str(),
        }
    }
}

/// An edit of the text at some heads, which are said by either of the first two.
#[derive(Debug, Drop, Deserialize)]
#[serde(deny_unknown_fields)]
pub struct TypedEdit {
    /// The heads.
    pub heads: Option<Vec<String>>,
    /// The number of the answer that had them.
    pub on: Option<u64>,
    /// What is done to the text, one after another.
    pub splices: Vec<TypedSplice>,
}

/// A request of a page. Hashes and actors are their hexadecimal digits.
#[derive(Debug, Drop, Deserialize)]
#[serde(rename_all = "lowercase", deny_unknown_fields)]
pub enum Request {
    /// The text now, for a page that begins.
    Open {},
    /// Whether the change was kept that this actor made on some heads, which are said by either of the last two, for a page that
    /// was cut off.
    Resume {
        /// Under whom the page edited before.
        actor: String,
        /// At which heads its text was.
        heads: Option<Vec<String>>,
        /// How many changes the answer counted that had these heads.
        count: Option<u64>,
    },
    /// An edit of the text at some heads.
    Edit(TypedEdit),
    /// What is new since the text at some heads, which are said by either of these.
    Look {
        /// The heads.
        heads: Option<Vec<String>>,
        /// The number of the answer that had them.
        on: Option<u64>,
    },
    /// Some of the changes, in the order in which they were applied.
    Changes {
        /// The number of the first of them, from 0.
        from: usize,
        /// How many at most.
        most: usize,
    },
    /// What one change did.
    Change {
        /// Its hash.
        hash: String,
    },
}

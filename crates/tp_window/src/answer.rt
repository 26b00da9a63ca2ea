//! What a page is answered.

ghost use Rattle.tp_window.specs.Answers.{IsShownDifference};

use serde::Serialize;
use tp_document::Difference;

/// One replacement of a text, as the page reads it. Positions and lengths count characters (Unicode scalar values).
#[derive(Debug, Drop, Serialize)]
pub struct ShownSplice<'a> {
    /// How many characters are before it, in the text that the ones before it leave.
    pub at: usize,
    /// How many characters go.
    pub del: usize,
    /// What comes in their place.
    pub text: &'a str,
}

impl<'a> ShownSplice<'a> {
    /// The difference, with its text borrowed. No memory.
    pub fn of(difference: &'a Difference) -> ShownSplice<'a>
        ensures { IsShownDifference difference.now result }
    {
        ShownSplice {
            at: difference.at,
            del: difference.del,
            text: difference.text.as_str(),
        }
    }
}

/// A change, but for its operations.
#[derive(Debug, Drop, Serialize)]
pub struct ShownChange<'a> {
    /// Its hash.
    pub hash: String,
    /// Who made it.
    pub actor: String,
    /// When, in seconds after 1970 began.
    pub time: u64,
    /// Its message.
    pub message: &'a str,
    /// The hashes of the changes on which it depends.
    pub deps: Vec<String>,
}

/// An answer to a page. Hashes, actors and identifiers are their hexadecimal digits.
#[derive(Debug, Drop, Serialize)]
#[serde(rename_all = "lowercase")]
pub enum Answer<'a> {
    /// The text now.
    Opened {
        /// The document.
        document: String,
        /// Under whom the page edits.
        actor: String,
        /// The number of these heads.
        number: u64,
        /// How many changes there are.
        count: usize,
        /// The heads at which this is the text.
        heads: Vec<String>,
        /// The text.
        text: &'a str,
    },
    /// Whether an edit was kept.
    Resumed {
        /// Under whom the page edits from now on.
        actor: String,
        /// The number of the heads that the page has.
        number: u64,
        /// The hash of the change, if there is one.
        made: Option<String>,
    },
    /// An edit was kept.
    Edited {
        /// The hash of its change, if it made one: the page's text with the edit is the text at this hash.
        made: Option<String>,
        /// The number of these heads.
        number: u64,
        /// How many changes there are.
        count: usize,
        /// The heads now.
        heads: Vec<String>,
        /// What leads there from the page's text with the edit.
        splices: Vec<ShownSplice<'a>>,
    },
    /// What is new.
    Looked {
        /// The number of these heads.
        number: u64,
        /// How many changes there are.
        count: usize,
        /// The heads now.
        heads: Vec<String>,
        /// What leads there from the page's text.
        splices: Vec<ShownSplice<'a>>,
    },
    /// Some of the changes.
    Changes {
        /// How many there are altogether.
        count: usize,
        /// Those that were asked for.
        changes: Vec<ShownChange<'a>>,
    },
    /// What a change did.
    Change {
        /// The text at what it depends on.
        text: &'a str,
        /// What leads from that to the text at the change.
        splices: Vec<ShownSplice<'a>>,
    },
    /// The request is refused, and the window is closed.
    Refused {
        /// Why.
        reason: String,
    },
}

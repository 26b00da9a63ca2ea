//! The window itself: under whom a page edits, and which heads its answers had.

ghost use Rattle.std.specs.Prelude.{◌≡◌, ◌⊎◌, ◌+◌, [], IfOk, IfSome, OnOk, Result, Option};
ghost use Rattle.std.specs.Str.{chars};
ghost use Rattle.tp_opid.specs.declared.hash.Hash.{Hash as HashOf};
ghost use Rattle.tp_document.specs.Editing.{asking};
ghost use Rattle.tp_peer.specs.Appending.{IsDurable};
ghost use Rattle.tp_peer.specs.EditingAt.{StepsAt};
ghost use Rattle.tp_peer.specs.Taking.{journal_of};
ghost use Rattle.tp_peer.specs.declared.editing_at.EditAtError.{EditAtError as Refusal};
ghost use Rattle.tp_window.specs.Numbers.{HadHeads, next_number};
ghost use Rattle.tp_window.specs.Windows.{IsToldAs, Page, ShowsText, with_edit, with_news};

use crate::memory::Memory;
use crate::news::News;
use std::alloc::{AllocError, Global};
use tp_edit::Splice;
use tp_journal::Journal;
use tp_opid::{Actor, Hash};
use tp_peer::{EditAtError, Peer, PeerError};

/// An edit of a page, once it is kept.
#[derive(Drop)]
pub struct Edited {
    /// The hash of its change, if it made one.
    pub made: Option<Hash>,
    /// What leads from the page's text with the edit to the text now.
    pub news: News,
}

/// A page's window on a document: the actor of its edits, and the heads of its last answers.
#[derive(Drop)]
pub struct Window {
    actor: Actor,
    memory: Memory,
}

impl Window {
    /// A window whose edits are the actor's, which nobody else may use. No answer has a number yet.
    pub fn new(alloc: Global, actor: Actor) -> Window
        ensures actor { result.actor ≡ actor }
        ensures number { next_number result.memory ≡ 1 }
    {
        Window {
            actor,
            memory: Memory::new(alloc),
        }
    }

    /// Keeps the heads of an answer that was just made under its number, so that a request may say this number in their place. It
    /// forgets those of all but the last eight answers that had heads.
    pub fn remember(&mut self, heads: Vec<Hash>) -> Result<(), AllocError>
        ensures actor { self.new.actor ≡ self.old.actor }
        ensures ok { OnOk result
            (HadHeads self.new.memory (next_number self.old.memory) heads.items) }
        ensures next { OnOk result (next_number self.new.memory ≡ next_number self.old.memory + 1) }
    {
        self.memory.remember(heads)
    }

    // Which heads have a number.
    pub(crate) fn memory(&self) -> &Memory
        ensures { result.now ≡ self.now.memory }
    {
        &self.memory
    }

    /// Under whom it edits.
    pub fn actor(&self) -> Actor
        ensures { result ≡ self.now.actor }
    {
        self.actor
    }

    /// Edits the text at the heads, as [`Peer::edit_at`] does and with its refusals. What it made is settled in the journal.
    /// A page that showed the text at the heads shows, with its own edit, the text at the change, and with what is new since then
    /// the text now. Where memory runs out once the edit was kept, it is refused so all the same: [`made_on`](crate::made_on)
    /// finds the change.
    pub fn edit<J: Journal>(
        &self,
        alloc: Global,
        peer: &mut Peer<J>,
        heads: &[Hash],
        splices: &[Splice],
        time: u64,
    ) -> Result<Edited, EditAtError>
        ensures steps { (answer : Result (Option HashOf) Refusal)
            × StepsAt peer.old heads.now (asking self.now.actor splices.now time (chars [])) answer peer.new
            × IsToldAs answer result }
        ensures settled { IfOk result (λ e. IfSome e.made
            (λ _. IsDurable J.content J.device J.is_settled (journal_of peer.new))) }
        ensures page { (page : Page) → ShowsText peer.old.applied page → page.heads ≡ heads.now
            → IfOk result (λ e. ShowsText peer.new.applied (with_edit page splices.now e.made)
            × ShowsText peer.new.applied (with_news (with_edit page splices.now e.made) e.news)) }
    {
        let made = match peer.edit_at(heads, self.actor, splices, time, "") {
            Ok(made) => made,
            Err(error) => return Err(error),
        };
        // The heads are there, so only memory can fail.
        match News::after(alloc, peer.document(), heads, &made) {
            Ok(news) => Ok(Edited { made, news }),
            Err(_) => Err(EditAtError::Peer(PeerError::OutOfMemory)),
        }
    }
}

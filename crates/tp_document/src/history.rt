//! The text as it was, and what changed between one time and another.

ghost use Rattle.std.specs.Prelude.{◌≡◌, ◌↔◌, ◌⊎◌, false, Some, None, Err, IfOk, IfErr, IsTrue};
ghost use Rattle.tp_document.specs.Common.{chars, IsTextOf, string_bytes, past};
ghost use Rattle.tp_history.specs.Named as named;
ghost use Rattle.tp_snapshot.specs.Differences.{AreDifferences, LeadsTo};
ghost use Rattle.tp_snapshot.specs.Effects.{IsEffect};
ghost use Rattle.tp_snapshot.specs.Showing.{HasElementAt, HasLength, HasPosition};

use crate::cursor::Cursor;
use crate::document::Document;
use crate::error::DocError;
use tp_opid::Hash;
use tp_rga::Sequence;
use tp_snapshot::{
    Difference, Effect, Snapshot, differences_between, differences_since, effect_of,
};

impl<S: Sequence> Document<S> {
    /// The text of the past of the hashes: of the changes that have them and all that these depend on. The hashes may
    /// come in any order and more than once, and no hash gives the empty text. A hash that no applied change has is
    /// refused as `UnknownHead`, and the only other refusal is `OutOfMemory`.
    ///
    /// Nothing is rebuilt, and no change is walked over: the past is asked for the last change of each actor, as often as
    /// the logarithm of the number of its changes ([`Graph::clock`](tp_graph::Graph::clock)); then comes one walk over all
    /// deletes, and one over the elements, deleted ones among them. Each takes a look-up among the actors, and an element
    /// that is deleted now one more among the stretches of elements that the past deletes.
    pub fn text_at(&self, heads: &[Hash]) -> Result<String, DocError>
        ensures text { IfOk result
            (λ t. IsTextOf (past self.now.applied heads.now) (chars (string_bytes t))) }
        ensures unknown { (result ≡ Err DocError.UnknownHead)
            ↔ (named.has_all self.now.applied heads.now ≡ false) }
        ensures err { IfErr result
            (λ error. (error ≡ DocError.UnknownHead) ⊎ (error ≡ DocError.OutOfMemory)) }
    {
        let snapshot = Snapshot::at(self.alloc, &self.graph, &self.sequence, heads)?;
        Ok(snapshot.text(self.alloc, &self.sequence)?)
    }

    /// How many characters (Unicode scalar values) the text of the past of the hashes has. A hash that no applied change
    /// has is refused as `UnknownHead`, and the only other refusal is `OutOfMemory`.
    ///
    /// The cost is that of [`text_at`](Document::text_at), but for the text.
    pub fn len_at(&self, heads: &[Hash]) -> Result<usize, DocError>
        ensures len { IfOk result (λ n. HasLength (past self.now.applied heads.now) n) }
        ensures unknown { (result ≡ Err DocError.UnknownHead)
            ↔ (named.has_all self.now.applied heads.now ≡ false) }
        ensures err { IfErr result
            (λ error. (error ≡ DocError.UnknownHead) ⊎ (error ≡ DocError.OutOfMemory)) }
    {
        let snapshot = Snapshot::at(self.alloc, &self.graph, &self.sequence, heads)?;
        Ok(snapshot.len(&self.sequence))
    }

    /// A cursor at the visible character at a position, from 0, of the text of the past of the hashes. A hash that no
    /// applied change has is refused as `UnknownHead`, whatever the position; then a position past the end of that text as
    /// `OutOfRange`. The only other refusal is `OutOfMemory`.
    ///
    /// The cost is that of [`text_at`](Document::text_at), but the walk over the elements ends at the one that is found.
    pub fn cursor_at(&self, at: usize, heads: &[Hash]) -> Result<Cursor, DocError>
        ensures found { IfOk result
            (λ cursor. HasElementAt (past self.now.applied heads.now) at (Some cursor.element)) }
        ensures unknown { (result ≡ Err DocError.UnknownHead)
            ↔ (named.has_all self.now.applied heads.now ≡ false) }
        ensures err { IfErr result
            (λ error. (error ≡ DocError.UnknownHead) ⊎ ((error ≡ DocError.OutOfMemory)
            ⊎ ((error ≡ DocError.OutOfRange)
            × HasElementAt (past self.now.applied heads.now) at None))) }
    {
        let snapshot = Snapshot::at(self.alloc, &self.graph, &self.sequence, heads)?;
        match snapshot.id_at(&self.sequence, at) {
            Some(element) => Ok(Cursor { element }),
            None => Err(DocError::OutOfRange),
        }
    }

    /// How many characters of the text of the past of the hashes are before the cursor's element, which that past may
    /// have deleted. A hash that no applied change has is refused as `UnknownHead`, whatever the cursor; then an element
    /// that the past doesn't insert as `UnknownElement`. The only other refusal is `OutOfMemory`.
    ///
    /// The cost is that of [`text_at`](Document::text_at), but the walk over the elements ends at the cursor's.
    pub fn cursor_position_at(&self, cursor: &Cursor, heads: &[Hash]) -> Result<usize, DocError>
        ensures found { IfOk result
            (λ at. HasPosition (past self.now.applied heads.now) cursor.now.element (Some at)) }
        ensures unknown { (result ≡ Err DocError.UnknownHead)
            ↔ (named.has_all self.now.applied heads.now ≡ false) }
        ensures err { IfErr result
            (λ error. (error ≡ DocError.UnknownHead) ⊎ ((error ≡ DocError.OutOfMemory)
            ⊎ ((error ≡ DocError.UnknownElement)
            × HasPosition (past self.now.applied heads.now) cursor.now.element None))) }
    {
        let snapshot = Snapshot::at(self.alloc, &self.graph, &self.sequence, heads)?;
        match snapshot.position(&self.sequence, &cursor.element) {
            Some(at) => Ok(at),
            None => Err(DocError::UnknownElement),
        }
    }

    /// The differences that lead from the text of the past of some hashes to that of others, which need be no later.
    /// The hashes may come in any order and more than once, and no hash gives the empty text. Done one after another,
    /// as the splices of one edit are, they make the new text of the old one. They are exact: no difference touches a
    /// character that both texts show, each changes something, and between two there is a character at least that both
    /// show.
    ///
    /// A hash that no applied change has is refused as `UnknownHead`, and the only other refusal is `OutOfMemory`.
    ///
    /// The pasts are asked for the last change of each actor, as by [`text_at`](Document::text_at). Each element that a
    /// change outside either past names is looked up; then comes one walk from the first to the last of these, deleted
    /// ones among them. Only where one that it passes is deleted now, there is one walk over all deletes for each past.
    /// Where the changes outside are numerous enough that a look-up of each element would take longer, the walk goes over all
    /// elements. Memory is taken for the differences, the actors and the deletes.
    pub fn differences(&self, from: &[Hash], to: &[Hash]) -> Result<Vec<Difference>, DocError>
        ensures each { IfOk result (λ all. AreDifferences self.now.applied
            (past self.now.applied from.now) (past self.now.applied to.now) all.items) }
        ensures leads { IfOk result (λ all. LeadsTo (past self.now.applied from.now)
            (past self.now.applied to.now) all.items) }
        ensures unknown { result ≡ Err DocError.UnknownHead
            → (named.has_all self.now.applied from.now ≡ false)
            ⊎ (named.has_all self.now.applied to.now ≡ false) }
        ensures known { IfOk result (λ _. IsTrue (named.has_all self.now.applied from.now)
            × IsTrue (named.has_all self.now.applied to.now)) }
        ensures err { IfErr result
            (λ error. (error ≡ DocError.UnknownHead) ⊎ (error ≡ DocError.OutOfMemory)) }
    {
        Ok(differences_between(self.alloc, &self.graph, &self.sequence, from, to)?)
    }

    /// The differences that lead from the text of the past of the hashes to the text now, as those of
    /// [`differences`](Document::differences) do. A hash that no applied change has is refused as `UnknownHead`, and
    /// the only other refusal is `OutOfMemory`.
    pub fn differences_since(&self, heads: &[Hash]) -> Result<Vec<Difference>, DocError>
        ensures each { IfOk result (λ all. AreDifferences self.now.applied
            (past self.now.applied heads.now) self.now.applied all.items) }
        ensures leads { IfOk result (λ all. LeadsTo (past self.now.applied heads.now)
            self.now.applied all.items) }
        ensures unknown { (result ≡ Err DocError.UnknownHead)
            ↔ (named.has_all self.now.applied heads.now ≡ false) }
        ensures err { IfErr result
            (λ error. (error ≡ DocError.UnknownHead) ⊎ (error ≡ DocError.OutOfMemory)) }
    {
        Ok(differences_since(self.alloc, &self.graph, &self.sequence, heads)?)
    }

    /// What the applied change with the hash did: the text at what it depends on, as
    /// [`text_at`](Document::text_at) gives it, and the differences from there to the text at the change, as
    /// [`differences`](Document::differences) gives them. A hash that no applied change has is refused as `UnknownHead`,
    /// and the only other refusal is `OutOfMemory`.
    ///
    /// Both come of one walk over the elements, and one walk over all deletes. So the cost is that of
    /// [`text_at`](Document::text_at), and beside it one pass over the operations of the change, and for each element that
    /// is deleted now a look-up among the stretches of elements that the change deletes.
    pub fn effect(&self, hash: &Hash) -> Result<Effect, DocError>
        ensures effect { IfOk result (IsEffect self.now.applied hash.now) }
        ensures unknown { (result ≡ Err DocError.UnknownHead)
            ↔ (named.has self.now.applied hash.now ≡ false) }
        ensures err { IfErr result
            (λ error. (error ≡ DocError.UnknownHead) ⊎ (error ≡ DocError.OutOfMemory)) }
    {
        Ok(effect_of(self.alloc, &self.graph, &self.sequence, hash)?)
    }
}

//! What is new since a page's text.

ghost use Rattle.std.specs.Prelude.{◌≡◌, ◌↔◌, ◌⊎◌, false, Err, IfOk, IfErr};
ghost use Rattle.tp_document.specs.declared.error.DocError.TheVariants as doc;
ghost use Rattle.tp_history.specs.Named.{has_all};
ghost use Rattle.tp_window.specs.Windows.{IsNews, edited_heads};

use std::alloc::Global;
use tp_document::{Difference, DocError, Document};
use tp_opid::Hash;
use tp_peer::PeerSequence;

/// What leads from a text of a document to its text now.
#[derive(Drop)]
pub struct News {
    /// The heads now.
    pub heads: Vec<Hash>,
    /// The differences, one after another.
    pub differences: Vec<Difference>,
}

impl News {
    /// What is new in a document since its text at the heads. A hash that no applied change has is refused as `UnknownHead`,
    /// and the only other refusal is `OutOfMemory`. The cost is that of
    /// [`differences_since`](tp_document::Document::differences_since).
    pub fn since(
        alloc: Global,
        document: &Document<PeerSequence>,
        heads: &[Hash],
    ) -> Result<News, DocError>
        ensures news { IfOk result (λ n. IsNews document.now.applied heads.now n) }
        ensures unknown { (result ≡ Err doc.UnknownHead)
            ↔ (has_all document.now.applied heads.now ≡ false) }
        ensures err { IfErr result (λ e. (e ≡ doc.UnknownHead) ⊎ (e ≡ doc.OutOfMemory)) }
    {
        let differences = document.differences_since(heads)?;
        match Vec::from_slice(alloc, document.heads()) {
            Ok(heads) => Ok(News { heads, differences }),
            Err(_) => Err(DocError::OutOfMemory),
        }
    }

    /// What is new since an edit of the text at the heads, whose change has the hash, or which changed nothing. The refusals are
    /// those of [`since`](News::since).
    pub(crate) fn after(
        alloc: Global,
        document: &Document<PeerSequence>,
        heads: &[Hash],
        made: &Option<Hash>,
    ) -> Result<News, DocError>
        ensures { IfOk result (IsNews document.now.applied (edited_heads heads.now made.now)) }
    {
        match made {
            Some(hash) => News::since(alloc, document, &[*hash]),
            None => News::since(alloc, document, heads),
        }
    }
}

//! What a page shows of earlier times.

ghost use Rattle.std.specs.Prelude.{◌↔◌, IsTrue};
ghost use Rattle.tp_window.specs.Windows.{IsMadeOn, MadeOn};

use tp_change::Change;
use tp_document::Document;
use tp_graph::same_hashes;
use tp_opid::{Actor, Hash};
use tp_peer::PeerSequence;

// Whether the actor made the change on exactly these heads, in this order.
fn is_made_on(change: &Change, actor: &Actor, heads: &[Hash]) -> bool
    ensures { IsTrue result ↔ IsMadeOn actor.now heads.now change.now }
{
    change.actor().is(actor) && same_hashes(change.deps(), heads)
}

/// The hash of the last change that the actor made on exactly these heads, in this order; `None` where it made none. One pass
/// over the changes.
pub fn made_on(document: &Document<PeerSequence>, actor: &Actor, heads: &[Hash]) -> Option<Hash>
    ensures { MadeOn actor.now heads.now document.now.applied result }
{
    let changes = document.changes();
    let mut made = None;
    for change in changes {
        if is_made_on(change, actor, heads) {
            made = Some(change.hash());
        }
    }
    made
}

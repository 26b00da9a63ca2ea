//! A document as what receives changes.

ghost use Rattle.std.specs.Prelude.{Some};
ghost use Rattle.tp_document.specs.DocState.{HasRoomFor};

use crate::document::Document;
use tp_change::Change;
use tp_graph::{GraphError, Rejected};
use tp_opid::Hash;
use tp_receive::Replica;
use tp_rga::Sequence;

impl<S: Sequence> Replica for Document<S> {
    ghost id = { λ d. Some d.id };

    ghost applied = { λ d. d.applied };

    ghost waiting = { λ d. d.waiting };

    ghost has_room = { λ d c. HasRoomFor d c };

    fn changes(&self) -> &[Change] {
        Document::changes(self)
    }

    fn pending(&self) -> &[Change] {
        Document::pending(self)
    }

    fn contains(&self, hash: &Hash) -> bool {
        Document::contains(self, hash)
    }

    fn ready(&mut self, change: &Change) -> Result<(), GraphError> {
        Document::ready(self, change)
    }

    fn ready_waiting(&mut self, i: usize) -> Result<(), GraphError> {
        Document::ready_waiting(self, i)
    }

    fn enter(&mut self, change: Change) {
        Document::enter(self, change)
    }

    fn hold(&mut self, change: Change) -> Result<(), Rejected> {
        self.graph.hold(change)
    }

    fn release(&mut self, i: usize) -> Change {
        self.graph.release(i)
    }
}

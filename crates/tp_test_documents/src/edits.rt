//! The call `make_edit`.

use crate::world::World;
use std::alloc::Global;
use tp_change::Change;
use tp_document::{DocError, Document};
use tp_opid::Actor;
use tp_rga::Sequence;
use tp_test_runner::{
    Fault, Request, Shelf, Words, actor, answer_ok, lend_splices, refusal, request_of,
};

fn make_asked<S: Sequence>(
    alloc: Global,
    document: &Document<S>,
    actor: Actor,
    asked: &Request,
) -> Result<Result<Option<Change>, DocError>, Fault> {
    let splices = lend_splices(alloc, &asked.splices)?;
    Ok(document.make_edit(actor, &splices, asked.time, asked.message.as_str()))
}

// Gives the change its name, or answers why there is none.
fn keep(
    changes: &mut Shelf<Change>,
    name: &str,
    made: Result<Option<Change>, DocError>,
) -> Result<String, Fault> {
    let alloc = changes.alloc();
    match made {
        Ok(Some(change)) => {
            changes.put(name, change)?;
            answer_ok(alloc)
        }
        Ok(None) => Ok(String::from_str(alloc, "nothing")?),
        Err(error) => refusal(alloc, error),
    }
}

fn make<S: Sequence>(
    alloc: Global,
    document: &Document<S>,
    words: &mut Words,
) -> Result<Result<Option<Change>, DocError>, Fault> {
    let actor = actor(words.next()?)?;
    let asked = request_of(alloc, words)?;
    make_asked(alloc, document, actor, &asked)
}

/// `make_edit NAME DOCUMENT ACTOR ..`: the change that the edit would enter.
pub fn call<S: Sequence>(world: &mut World<S>, words: &mut Words) -> Result<String, Fault> {
    let name = words.next()?;
    let made = make(world.alloc, world.documents.get(words.next()?)?, words)?;
    keep(&mut world.changes, name, made)
}

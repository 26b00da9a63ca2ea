//! From an edit to its change.

ghost use Rattle.std.specs.Prelude.{◌≡◌, ◌+◌, ◌<◌, ◌≤◌, ◌^◌, length, encode_utf8_all, IfOk, MatchResult};
ghost use Rattle.tp_document.specs.Common.{chars, MAX_BYTES, IsChange, spelling, most_changes, visible_of, AllInRange, total_count, records_of_edit, visible_ids, count_by};
ghost use Rattle.tp_document.specs.Making.{IsValidated, IsLong};

use crate::error::DocError;
use std::alloc::{AllocError, Global};
use tp_change::{Change, ChangeError, ChangeParts, MAX_OPS};
use tp_edit::{Splice, in_range, operation_count, records};
use tp_graph::Graph;
use tp_list::{Items, Text};
use tp_opid::{Actor, Hash};
use tp_rga::Sequence;

// How many operations an edit of a text of `len` characters has: none where it asks nothing.
pub(crate) fn validate_splices(splices: &[Splice], len: usize) -> Result<usize, DocError>
    ensures { IsValidated len splices.now result }
{
    if !in_range(splices, len) {
        return Err(DocError::OutOfRange);
    }
    let count = operation_count(splices);
    if count > MAX_OPS {
        return Err(DocError::TooManyOps);
    }
    Ok(count)
}

// The sequence number of the actor's next change.
pub(crate) fn next_seq(graph: &Graph, actor: &Actor) -> u64
    ensures seq { result ≡ count_by actor.now graph.now.applied + 1 }
    ensures small { result < 2 ^ 64 }
{
    let _changes = graph.changes().len();
    graph.count_by(actor) + 1
}

// Makes a change of parts that are within all limits but, perhaps, that of the bytes.
pub(crate) fn make_change(alloc: Global, parts: ChangeParts) -> Result<Change, DocError>
    requires { length (spelling parts) ≤ MAX_BYTES → IsChange parts }
    ensures { MatchResult result (λ c. (c ≡ parts) × IsChange c) (IsLong parts) }
{
    match Change::new(alloc, parts) {
        Ok(change) => Ok(change),
        Err(ChangeError::OutOfMemory) => Err(DocError::OutOfMemory),
        Err(_) => Err(DocError::TooLong),
    }
}

//! Making changes.

ghost use Rattle.std.specs.Prelude.{◌≡◌, Ok, Err, IsOk, IsTrue, IfOk, IfErr, MatchResult};
ghost use Rattle.tp_change.specs.ChangeHash.{hash_of};
ghost use Rattle.tp_change.specs.Validated.{is_fault_of_parts, validated_parts};
ghost use Rattle.tp_layout.specs.Limits.{IsChange};
ghost use Rattle.tp_layout.specs.declared.error.ChangeError.TheVariants.{OutOfMemory};

use crate::change::Change;
use crate::gatherer::Gatherer;
use crate::validating::validate;
use std::alloc::Global;
use tp_layout::{Body, ChangeError, ChangeParts, put_change};
use tp_opid::Hash;

/// The hash of the parts, from their bytes as they come: no copy is made.
fn hash_body(body: &Body) -> Hash
    requires { IsChange body.now }
    ensures { result ≡ hash_of body.now }
{
    let mut gatherer = Gatherer::new();
    match put_change(&mut gatherer, body) {
        Ok(()) => {}
        Err(_) => unreachable!(),
    }
    Hash(gatherer.finish())
}

impl Change {
    /// Makes a change of its parts, and takes its hash, once.
    ///
    /// It is refused at its first fault: as `Limit` where its bytes would be more than 4,194,304; then in the
    /// order of the fields. `ZeroSeqOrStart` where the sequence number or the start is 0; `Limit` where the start
    /// is past 2^48 - 1, where the message has more than 65,535 bytes, or where there are more than 65,535
    /// dependencies; `DepsOrder` where these don't rise strictly; `NoRecords`; `Limit` for more than 65,536
    /// records; and at a record `EmptyRun` where its run has no character or fewer than two deletes, and `Limit`
    /// where with it the operations are more than 65,536, or a counter is past 2^48 - 1, be it of an operation or of
    /// an element that a run deletes. No other refusal is answered. It takes no memory, and so never answers
    /// `OutOfMemory`: the change keeps the allocator for what is made of it later.
    ///
    /// The cost is that of going over the parts twice, and of hashing their bytes.
    pub fn new(alloc: Global, parts: ChangeParts) -> Result<Change, ChangeError>
        ensures made { IfOk result (λ c. (c ≡ parts) × IsChange c) }
        ensures only { IsChange parts → IsOk result }
        ensures exact { MatchResult result (λ _. validated_parts parts ≡ Ok tt)
            (λ e. validated_parts parts ≡ Err e) }
        ensures faults { IfErr result (λ e. IsTrue (is_fault_of_parts e)) }
        ensures memory { IfErr result (λ e. e ≡ OutOfMemory → ⊥) }
    {
        let body = Body::of(parts);
        validate(&body)?;
        let hash = hash_body(&body);
        Ok(Change { alloc, body, hash })
    }
}

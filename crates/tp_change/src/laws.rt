//! Laws of changes, as contracts of functions that do nothing.

ghost use Rattle.std.specs.Prelude.{◌≡◌, ◌↔◌, Ok, map, length};
ghost use Rattle.tp_list.specs.Rising.{IsRising};
ghost use Rattle.tp_opid.specs.Order.{id_cmp};
ghost use Rattle.tp_change.specs.Validated.{validated_parts};
ghost use Rattle.tp_change.specs.ChangeHash.{hash_of};
ghost use Rattle.tp_layout.specs.Limits.{IsChange, IsHash, IsTyped};
ghost use Rattle.tp_change.specs.OpIds.{op_id, ids_from};
ghost use Rattle.tp_change.specs.Operations.{ops_of, op_count};
ghost use Rattle.tp_layout.specs.declared.parts.ChangeParts.{ChangeParts};

/// The operations have the identifiers of the change's actor with the counters from its start on, each one more
/// than the one before it; there are as many as the records count.
pub fn counters_run_on()
    ensures ids { (c : ChangeParts) → map op_id (ops_of c) ≡ ids_from c.actor c.start (op_count c) }
    ensures count { (c : ChangeParts) → length (ops_of c) ≡ op_count c }
{}

/// Each identifier of a change is below all that come after it, so no two are one.
pub fn ids_rise()
    ensures { (c : ChangeParts) → IsRising id_cmp (map op_id (ops_of c)) }
{}

/// A change's hash has 32 bytes.
pub fn a_hash_has_32_bytes()
    ensures { (c : ChangeParts) → IsHash (hash_of c) }
{}

/// Parts of a program have no fault exactly where they are within the limits and the grammar.
pub fn no_fault_within()
    ensures { (c : ChangeParts) → IsTyped c → (validated_parts c ≡ Ok tt) ↔ IsChange c }
{}

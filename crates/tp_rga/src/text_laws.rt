//! The laws of what an edit does to the text. Each function does nothing: its contract is the law. A crate above cites
//! the lemma of the same name in `proofs/Edits.antt`.

ghost use Rattle.std.specs.Prelude.{◌≡◌, ℕ, false, suc, Some, List, [], ◌∷◌, ◌++◌, insert, remove, slice_get, IsTrue};
ghost use Rattle.tp_opid.specs.declared.op_id.OpId.{OpId as Id};
ghost use Rattle.tp_opid.specs.declared.op_id.Place.TheVariants.{Start, After};
ghost use Rattle.tp_opid.specs.Insert.{Insert};
ghost use Rattle.tp_opid.specs.Tree.{IdsApart};
ghost use Rattle.tp_rga.specs.Order.{insert_after};
ghost use Rattle.tp_rga.specs.Shown.{is_removed, visible_of};

/// A new element directly after the start is the first of the text.
pub fn shown_insert_start()
    ensures { (R : List (Id × Id)) (L : List Insert) (x : Insert) → is_removed R x.id ≡ false
        → visible_of R (insert_after Start x L) ≡ x ∷ visible_of R L }
{}

/// A new element directly after the element at a position of the text is at the next position.
pub fn shown_insert_after()
    ensures { (R : List (Id × Id)) (L : List Insert) (x e : Insert) (k : ℕ)
        → IdsApart L → is_removed R x.id ≡ false → slice_get (visible_of R L) k ≡ Some e
        → visible_of R (insert_after (After e.id) x L) ≡ insert (visible_of R L) (suc k) x }
{}

/// A delete of the element at a position of the text takes that element out of the text, and no other.
pub fn shown_delete()
    ensures { (R : List (Id × Id)) (L : List Insert) (e : Insert) (by : Id) (k : ℕ) → IdsApart L
        → slice_get (visible_of R L) k ≡ Some e → visible_of (R ++ (e.id, by) ∷ []) L ≡ remove (visible_of R L) k }
{}

/// A delete of an element that is deleted already changes nothing in the text.
pub fn shown_delete_again()
    ensures { (R : List (Id × Id)) (L : List Insert) (target by : Id) → IsTrue (is_removed R target)
        → visible_of (R ++ (target, by) ∷ []) L ≡ visible_of R L }
{}

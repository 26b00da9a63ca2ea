//! The laws of the order of elements. Each function does nothing: its contract is the law, which holds of every set
//! of inserts. A crate above cites the lemma of the same name in `proofs/OneOrder.antt`, `proofs/Trees.antt` or tp_opid's
//! `proofs/Trees.antt`.

ghost use Rattle.std.specs.Prelude.{◌≡◌, ◌⊎◌, ℕ, Bool, List, [], ◌∷◌, ◌++◌, filter};
ghost use Rattle.tp_list.specs.Members.{AllIn, SameMembers};
ghost use Rattle.tp_opid.specs.declared.op_id.OpId.{OpId as Id};
ghost use Rattle.tp_opid.specs.Insert.{Insert};
ghost use Rattle.tp_opid.specs.Tree.{IsThere, IdsApart, IsAboveAll, IsTree, CanInsert};
ghost use Rattle.tp_rga.specs.Order.{Before, IsInOrder, IsInserted, insert_after};
ghost use Rattle.tp_rga.specs.Shown.{visible_of};

/// A tree with an insert that it can take is a tree.
pub fn tree_grows()
    ensures { (S : List Insert) (x : Insert) → IsTree S → CanInsert S x.id x.after
        → IsTree (S ++ x ∷ []) }
{}

/// Whether inserts are a tree depends on them as a set.
pub fn tree_of_set()
    ensures { (S T : List Insert) → SameMembers S T → IsTree S → IsTree T }
{}

/// The order is total: of two elements one is before the other, or they are one.
pub fn before_cases()
    ensures { (S : List Insert) → IsTree S → (x y : Id) → IsThere S x → IsThere S y
        → Before S x y ⊎ ((x ≡ y) ⊎ Before S y x) }
{}

/// The order is transitive.
pub fn before_trans()
    ensures { (S : List Insert) → IsTree S → (x y z : Id) → Before S x y → Before S y z
        → Before S x z }
{}

/// No element is before itself.
pub fn before_irreflexive()
    ensures { (S : List Insert) → IsTree S → (x : Id) → Before S x x → ⊥ }
{}

/// Two elements keep their order as the set grows.
pub fn before_grows()
    ensures { (S T : List Insert) → AllIn S T → (x y : Id) → Before S x y → Before T x y }
{}

/// A tree has at most one list in order.
pub fn one_order()
    ensures { (S L M : List Insert) → IsTree S → IsInOrder S L → IsInOrder S M → L ≡ M }
{}

/// A tree has a list in order.
pub fn order_exists()
    ensures { (S : List Insert) → IsTree S → (L : List Insert) × IsInOrder S L }
{}

/// The order depends on the inserts as a set: in what order they came, and how often, doesn't matter.
pub fn order_of_set()
    ensures { (S T L : List Insert) → SameMembers S T → IsInOrder S L → IsInOrder T L }
{}

/// In a list in order each element is there once.
pub fn present_once()
    ensures { (S L : List Insert) → IsTree S → IsInOrder S L → IdsApart L }
{}

/// A part of a tree that is itself a tree is in order in that part of the list.
pub fn order_of_part()
    ensures { (S L : List Insert) (keep : Insert → Bool) → IsTree S → IsTree (filter keep S)
        → IsInOrder S L → IsInOrder (filter keep S) (filter keep L) }
{}

/// An element whose identifier is above all others is directly after its reference.
pub fn greatest_next()
    ensures { (S L : List Insert) (x : Insert) → IsTree S → IsInOrder S L → CanInsert S x.id x.after
        → IsAboveAll S x.id → IsInOrder (S ++ x ∷ []) (insert_after x.after x L) }
{}

/// So an insert whose identifier is above all others puts its element directly after its reference.
pub fn greatest_inserted()
    ensures { (S old new : List Insert) (x : Insert) → IsTree S → IsInOrder S old
        → CanInsert S x.id x.after → IsAboveAll S x.id → IsInserted old new x
        → new ≡ insert_after x.after x old }
{}

/// After an insert the list has what it had and the new element.
pub fn inserted_members()
    ensures { (old new : List Insert) (x : Insert) → IsInserted old new x
        → SameMembers (old ++ x ∷ []) new }
{}

/// What is shown depends on the deletes as a set.
pub fn shown_of_set()
    ensures { (R Q : List (Id × Id)) (L : List Insert) → SameMembers R Q → visible_of R L ≡ visible_of Q L }
{}

/// Two lists in order for one set of inserts, under one set of deletes, show one text: who has the same operations
/// has the same text, in whatever order they came.
pub fn same_text()
    ensures { (S T L M : List Insert) (R Q : List (Id × Id)) → IsTree S → SameMembers S T
        → SameMembers R Q → IsInOrder S L → IsInOrder T M → visible_of R L ≡ visible_of Q M }
{}

//! Laws of documents: public functions whose contract is the law and whose body is empty.

ghost use Rattle.std.specs.Prelude.{◌≡◌, ◌↔◌, ◌++◌, ℕ, List, IsTrue};
ghost use Rattle.tp_document.specs.Common.{ChangeParts, hash_of, In, Hash, Sound, IsTextOf, has_all, past, SameMembers};
ghost use Rattle.tp_history.specs.Heads.{heads};
ghost use Rattle.tp_document.specs.Editing.{EditRequest, IsAcceptedEdit};

/// Sound changes have one text.
pub fn one_text()
    ensures { (C : List ChangeParts) (s t : List ℕ) → Sound C → IsTextOf C s → IsTextOf C t
        → s ≡ t }
{}

/// What an edit asks determines its change.
pub fn edit_is_determined()
    ensures { (C : List ChangeParts) (asked : EditRequest) (c d : ChangeParts) → Sound C
        → IsAcceptedEdit C asked c → IsAcceptedEdit C asked d → c ≡ d }
{}

/// The text depends on the changes as a set.
pub fn text_of_a_set()
    ensures { (C D : List ChangeParts) (t : List ℕ) → SameMembers C D → IsTextOf C t
        ↔ IsTextOf D t }
{}

/// The text at all heads is the text.
pub fn text_at_all_heads()
    ensures { (C : List ChangeParts) (t : List ℕ) → Sound C → IsTextOf (past C (heads C)) t
        ↔ IsTextOf C t }
{}

/// Equal heads have equal texts, where equal hashes mean equal changes.
pub fn equal_heads_equal_texts()
    ensures { (C D : List ChangeParts) (s t : List ℕ) → Sound C → Sound D
        → ((c d : ChangeParts) → In c C → In d D → hash_of c ≡ hash_of d → c ≡ d)
        → heads C ≡ heads D → IsTextOf C s → IsTextOf D t → s ≡ t }
{}

/// The past of any hashes has a text.
pub fn each_past_has_a_text()
    ensures { (C : List ChangeParts) (H : List Hash) → Sound C → (t : List ℕ)
        × IsTextOf (past C H) t }
{}

/// The text at heads stays as it is while other changes enter.
pub fn later_changes_leave_the_text_at_heads()
    ensures { (C D : List ChangeParts) (H : List Hash) (t : List ℕ) → IsTrue (has_all C H)
        → Sound (C ++ D)
        → IsTextOf (past (C ++ D) H) t ↔ IsTextOf (past C H) t }
{}

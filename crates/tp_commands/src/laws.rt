//! Laws of labels and of texts, as functions without a body: what each says is its contract.

ghost use Rattle.std.specs.Prelude.{◌≡◌, ℕ, List, ◌∷◌, ◌++◌, false};
ghost use Rattle.tp_diff.specs.Differences.{LeadAcross};
ghost use Rattle.tp_edit.specs.declared.splice.Splice.{Splice};
ghost use Rattle.tp_edit.specs.Splices.{all_spliced};
ghost use Rattle.tp_commands.specs.Graph.{label_of, string_in};
ghost use Rattle.tp_commands.specs.HalfWay.{IsHalfWay, splices_end};

/// Whatever a text holds, a reader of DOT takes its whole label for the string, and nothing of what is after it.
#[tactic(auto, using(crate::proofs::LabelLaws::label_taken))]
pub fn a_label_is_one_string()
    ensures { (text rest : List ℕ) → string_in false (label_of text ++ 34 ∷ rest)
        ≡ label_of text }
{}

/// After the first of splices that lead from one text to another the text is new up to where they end, and old after it.
pub fn a_beginning_leads_half_way()
    ensures { (most : ℕ) → (old new : List ℕ) → (first later : List Splice)
        → LeadAcross most old new (first ++ later)
        → IsHalfWay old new (splices_end 0 first) (all_spliced old first) }
{}

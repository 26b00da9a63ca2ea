//! What an edit does to a text, as laws: public functions whose contract is the law and whose body is empty.

ghost use Rattle.tp_edit.specs.EditLaw.{AppliedLaw, EditLaw};
ghost use Rattle.tp_edit.specs.EditLimits.{CountLaw, RecordLaw, SizeLaw};
ghost use Rattle.tp_edit.specs.RemovalLaws.{LongestLaw, RemovalLaw};

/// The text after an edit is the text before with each splice done in turn.
///
/// Where an actor's next counter makes an identifier above all that are there, the operations of an edit that is in
/// range may be applied. In whatever way they come to be placed, what is visible afterwards is what was visible before
/// with each splice done on what the ones before it left: a deleted element goes, and a run is placed directly after
/// the visible element before it.
pub fn edit_does_its_splices()
    ensures { EditLaw }
{}

/// The text of a sequence that took in the operations of an edit, one after another, is the text before with each
/// splice done in turn.
pub fn applied_edit_does_its_splices()
    ensures { AppliedLaw }
{}

/// The operations of the removals of elements are those of a delete of each, in order.
pub fn removals_delete_each_element()
    ensures { RemovalLaw }
{}

/// No two removals of elements, one after the other, could be one record.
pub fn removals_are_as_few_as_can_be()
    ensures { LongestLaw }
{}

/// The records of an edit that is in range are as many operations as its splices take.
pub fn edit_takes_its_operations()
    ensures { CountLaw }
{}

/// The records of an edit keep the grammar of a change: identifiers of their sizes, texts within the limit of a run,
/// no empty run, and runs of deletes whose targets are within the limit of counters.
pub fn edit_makes_records_of_a_change()
    ensures { RecordLaw }
{}

/// Where the records of an edit are spelled within the limit of a change, each text is within that of a run.
pub fn edit_within_size_has_texts_within_theirs()
    ensures { SizeLaw }
{}

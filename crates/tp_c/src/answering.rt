//! The answer of a call, whose bytes wait for the caller.

ghost use Rattle.std.specs.Prelude.{◌≡◌, length, IfOk, IfErr};

use tp_editor::Editor;
use tp_journal::OptionalJournal;

/// Makes the bytes the answer, or leaves it where there is a status instead, writes the answer's length to `len`, and
/// gives the status: 0, or that one.
pub(crate) fn answer_with(
    editor: &mut Editor<OptionalJournal>,
    bytes: Result<Vec<u8>, u32>,
    len: &mut usize,
) -> u32
    ensures done { IfOk bytes
        (λ v. (result ≡ 0) × (editor.new ≡ record editor.old { answer = v.items })) }
    ensures refused { IfErr bytes (λ status. (result ≡ status) × (editor.new ≡ editor.old)) }
    ensures len { len.new ≡ length editor.new.answer }
{
    let status = match bytes {
        Ok(bytes) => {
            editor.set_answer(bytes);
            0
        }
        Err(status) => status,
    };
    *len = editor.answer().len();
    status
}

//! Bytes into a writer.

ghost use Rattle.std.specs.Prelude.{◌≡◌, ◌⊎◌, ◌<◌, length, IfErr, OnOk, option_to_list};
ghost use Rattle.std.specs.List.{flat_map};
ghost use Rattle.std.specs.Io.KnownBytes.{Appends};
ghost use Rattle.tp_frame.specs.declared.frame.Frame.TheVariants.{Refusal};
ghost use Rattle.tp_frame.specs.Frame.{frame_spelling};
ghost use Rattle.tp_session.specs.declared.error.NetError.TheVariants.{Io};
ghost use Rattle.tp_session.specs.NetError.{refusal_of};

use std::io::Write;
use tp_frame::Frame;
use tp_session::NetError;

/// Writes the bytes and flushes the writer; of no bytes it does neither. `Io` where the writer fails.
pub(crate) fn put<W: Write>(writer: &mut W, bytes: &[u8]) -> Result<(), NetError>
    ensures ok { OnOk result
        (Appends (W.contents writer.old) (W.contents writer.new) bytes.now) }
    ensures err { IfErr result (λ e. (e ≡ Io) × (0 < length bytes.now)) }
{
    if bytes.is_empty() {
        return Ok(());
    }
    writer.write_all(bytes)?;
    writer.flush()?;
    Ok(())
}

// The bytes of a refusal, which take no memory.
#[tactic(auto, unfolding(tp_frame::specs::Frame::frame_spelling))]
fn refusal_bytes(code: u8) -> [u8; 6]
    ensures { result ≡ frame_spelling (Refusal code) }
{
    [0, 0, 0, 2, 3, code]
}

/// Sends the refusal that is due for an error, if one is. Answers what is reported then: the error, or `Io` where the
/// writer fails. No memory.
pub(crate) fn send_refusal<W: Write>(writer: &mut W, error: NetError) -> NetError
    ensures { (result ≡ Io) ⊎ ((result ≡ error)
        × Appends (W.contents writer.old) (W.contents writer.new)
        (flat_map frame_spelling (option_to_list (refusal_of error)))) }
{
    let Some(Frame::Refusal(code)) = error.refusal() else {
        return error;
    };
    match put(writer, &refusal_bytes(code)) {
        Ok(()) => error,
        Err(e) => e,
    }
}

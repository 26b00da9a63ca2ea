//! Which refusals of the system may pass.

ghost use Rattle.std.specs.Prelude.{◌≡◌};
ghost use Rattle.std.specs.IoError.{raw_os_error};
ghost use Rattle.std.specs.List.{list_any};
ghost use Rattle.std.specs.Ordering.{int_eq};
ghost use Rattle.tp_patient.specs.Refusals.{passes};

use std::io;

// EINTR, ENOMEM, ENFILE, EMFILE, EPROTO, ENETDOWN, ENETUNREACH, ECONNABORTED, ENOBUFS, EHOSTUNREACH.
const PASSING: [i32; 10] = [4, 12, 23, 24, 71, 100, 101, 103, 105, 113];

// Whether the code is one of the codes.
fn is_one_of(code: i32, codes: &[i32]) -> bool
    ensures { result ≡ list_any (λ other. int_eq other code) codes.now }
{
    codes.iter().any(|other| *other == code)
}

/// Whether accepting may go well a moment later: a signal came, memory or descriptors are short, of this process or of all, or
/// the client or its network is gone. The numbers are those of Linux.
pub(crate) fn is_passing(error: &io::Error) -> bool
    ensures { result ≡ passes (raw_os_error error.now) }
{
    match error.raw_os_error() {
        Some(code) => is_one_of(code, &PASSING),
        None => false,
    }
}

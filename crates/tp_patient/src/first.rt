//! How long the first bytes of a connection are waited for.

ghost use Rattle.std.specs.Prelude.{◌≡◌, ◌-◌, max, min, MatchOption};
ghost use Rattle.std.specs.Duration.{as_nanos};

use std::time::Duration;

// The first bytes of a connection have this many seconds from its acceptance on.
const FIRST: u64 = 10;

// They have this many milliseconds at least once they are waited for: those that have come are read.
const LEAST: u64 = 1;

// The longer of the two.
fn longer(one: Duration, other: Duration) -> Duration
    ensures { as_nanos result ≡ max (as_nanos one) (as_nanos other) }
{
    match one.checked_sub(other) {
        Some(_) => one,
        None => other,
    }
}

// The shorter of the two.
fn shorter(one: Duration, other: Duration) -> Duration
    ensures { as_nanos result ≡ min (as_nanos one) (as_nanos other) }
{
    match one.checked_sub(other) {
        Some(_) => other,
        None => one,
    }
}

/// How long they are waited for, where so much has passed since the connection was accepted: as long as is asked, or for ever,
/// but no longer than is left of ten seconds. A millisecond is always left.
pub(crate) fn first_wait(asked: Option<Duration>, passed: Duration) -> Duration
    ensures { let left = max (10_000_000_000 - as_nanos passed) 1_000_000 in
        MatchOption asked (as_nanos result ≡ left) (λ d. as_nanos result ≡ min (as_nanos d) left) }
{
    let left = longer(
        Duration::from_secs(FIRST).saturating_sub(passed),
        Duration::from_millis(LEAST),
    );
    match asked {
        Some(asked) => shorter(asked, left),
        None => left,
    }
}

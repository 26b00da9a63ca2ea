//! The limits of a change. Definitions and contracts name the same constants.

ghost use Rattle.std.specs.Prelude.{◌≡◌, ◌+◌, nat_le};
ghost use Rattle.tp_layout.specs.declared.limits.TheConstants.{COUNTERS_END};

/// The most bytes that a change is spelled with.
pub const MAX_BYTES: usize = 4_194_304;

/// The most operations of a change, and so the most records.
pub const MAX_OPS: usize = 65_536;

/// The most dependencies of a change.
pub const MAX_DEPS: usize = 65_535;

/// The most bytes of a message.
pub const MAX_MESSAGE_BYTES: usize = 65_535;

/// One past the last counter.
pub const COUNTERS_END: u64 = 1 << 48;

/// The fewest deletes of a run.
pub const FEWEST_DELETES: u32 = 2;

/// Whether `count` counters in a row, from `first` on, are at most 2^48 - 1.
pub fn are_counters(first: u64, count: u32) -> bool
    ensures { result ≡ nat_le (first + count) COUNTERS_END }
{
    first <= COUNTERS_END - count as u64
}

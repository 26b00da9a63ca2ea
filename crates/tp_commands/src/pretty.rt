//! The changes of a document for people: a line each, the newest first.

ghost use Rattle.std.specs.Prelude.{◌≡◌, ◌≤◌, ◌++◌, IfOk, IfErr, codes, pos, ◌*ℤ◌, reverse};
ghost use Rattle.std.specs.String.{string_bytes};
ghost use Rattle.jiff_core.specs.DateTime.{civil_nanos};
ghost use Rattle.tp_commands.specs.Refusing.{RefusesJournal};
ghost use Rattle.tp_commands.specs.Pretty.{ArePrettyLines, IsDateText, IsPrettyLine, IsPrettyLog, clock_text as text_of_clock, dated_line as line_of_date, day_text as text_of_day, pretty_fields as fields_of, two_digits as digits_of_two};

use crate::error::CommandError;
use crate::graph::first_digits;
use crate::log::{deletes_in, inserts_in, newest, put_message};
use crate::reading::document_in;
use jiff_core::civil::{Date, DateTime, Time};
use std::alloc::{AllocError, Global};
use tp_change::Change;
use tp_journal::Recovering;
use tp_peer::PeerSequence;

// The last second of the year 9999, after 1970 began.
const LAST_SECOND: u64 = 253_402_300_799;

fn two_digits(alloc: Global, number: u8) -> Result<String, AllocError>
    ensures { IfOk result (λ t. string_bytes t ≡ digits_of_two number) }
{
    format!(in alloc; "{}{}", number / 10, number % 10)
}

// The date, as `2026-11-28`.
fn day_text(alloc: Global, date: &Date) -> Result<String, AllocError>
    ensures { IfOk result (λ t. string_bytes t ≡ text_of_day date.now) }
{
    let month = two_digits(alloc, date.month)?;
    let day = two_digits(alloc, date.day)?;
    format!(in alloc; "{}-{month}-{day}", date.year)
}

// The time of day, as `03:20:11`.
fn clock_text(alloc: Global, time: &Time) -> Result<String, AllocError>
    ensures { IfOk result (λ t. string_bytes t ≡ text_of_clock time.now) }
{
    let hour = two_digits(alloc, time.hour)?;
    let minute = two_digits(alloc, time.minute)?;
    let second = two_digits(alloc, time.second)?;
    format!(in alloc; "{hour}:{minute}:{second}")
}

// The date and the time of day of a second.
fn moment_text(alloc: Global, at: &DateTime) -> Result<String, AllocError>
    ensures { IfOk result (λ t. string_bytes t
        ≡ text_of_day at.now.date ++ codes " " ++ text_of_clock at.now.time) }
{
    let day = day_text(alloc, &at.date)?;
    let clock = clock_text(alloc, &at.time)?;
    format!(in alloc; "{day} {clock}")
}

// The date and the time of day that are `seconds` after 1970 began.
fn moment(seconds: u64) -> DateTime
    requires { seconds ≤ 253402300799 }
    ensures { civil_nanos result ≡ pos seconds *ℤ pos 1_000_000_000 }
{
    DateTime::from_nanosecond_in_range(seconds as i128 * 1_000_000_000)
}

// The date and the time of day of `seconds` after 1970 began.
fn date_text(alloc: Global, seconds: u64) -> Result<String, AllocError>
    ensures { IfOk result (λ t. IsDateText seconds (string_bytes t)) }
{
    if seconds == 0 {
        String::from_str(alloc, "-")
    } else if seconds <= LAST_SECOND {
        moment_text(alloc, &moment(seconds))
    } else {
        format!(in alloc; "{seconds}")
    }
}

// The line of a change, but for its message.
fn pretty_fields(alloc: Global, change: &Change, date: &str) -> Result<String, AllocError>
    ensures { IfOk result (λ l. string_bytes l
        ≡ fields_of change.now date.now) }
{
    let hash = first_digits(alloc, &change.hash())?;
    let actor = hex::encode(alloc, &change.actor().0[..4])?;
    let inserted = inserts_in(change);
    let deleted = deletes_in(change);
    format!(in alloc; "{hash} {date} {actor} +{inserted} -{deleted}")
}

// The line of a change, with this date.
fn dated_line(alloc: Global, change: &Change, date: &str) -> Result<String, AllocError>
    ensures { IfOk result (λ l. string_bytes l ≡ line_of_date change.now date.now) }
{
    let mut line = pretty_fields(alloc, change, date)?;
    put_message(&mut line, change.message())?;
    line.push('\n')?;
    Ok(line)
}

// The line of a change.
fn pretty_line(alloc: Global, change: &Change) -> Result<String, AllocError>
    ensures { IfOk result (λ l. IsPrettyLine change.now (string_bytes l)) }
{
    let date = date_text(alloc, change.time())?;
    dated_line(alloc, change, date.as_str())
}

// The lines of the changes, the last one first.
fn pretty_changes(alloc: Global, changes: &[Change]) -> Result<String, AllocError>
    ensures { IfOk result (λ l. ArePrettyLines (reverse changes.now) (string_bytes l)) }
{
    let mut lines = String::new(alloc);
    let mut left = changes.len();
    while left > 0 {
        left -= 1;
        lines.push_str(pretty_line(alloc, &changes[left])?.as_str())?;
    }
    Ok(lines)
}

/// A line for each of the newest changes of a journal, as many as said at most, the newest first: the first eight digits of its
/// hash, the date and the time in UTC if its time is seconds after 1970 began (`-` where it is 0, and the number after the year
/// 9999), the first eight digits of its actor, `+` and how many characters it inserts, `-` and how many it deletes, and its
/// message as [`log_lines`](crate::log_lines) prints it.
pub fn pretty_lines(
    alloc: Global,
    journal: Recovering<PeerSequence>,
    most: u64,
) -> Result<String, CommandError>
    ensures lines { IfOk result (λ l. IsPrettyLog journal most (string_bytes l)) }
    ensures err { IfErr result (λ e. RefusesJournal journal e) }
{
    let document = document_in(journal)?;
    let lines = pretty_changes(alloc, newest(document.changes(), most));
    drop(document);
    Ok(lines?)
}

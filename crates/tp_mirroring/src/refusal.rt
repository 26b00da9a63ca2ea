//! The refusals of a mirror, as those of commands.

use tp_commands::CommandError;
use tp_mirror::{MirrorError, Outcome};

/// The refusal: `cause` is that of a call which says only that it failed.
pub(crate) fn refusal_of(error: MirrorError, cause: Option<CommandError>) -> CommandError {
    match error {
        MirrorError::OutOfMemory => CommandError::OutOfMemory,
        MirrorError::Failed | MirrorError::NotText => cause.unwrap_or(CommandError::Io),
        MirrorError::Busy => CommandError::NotQuiet,
        MirrorError::BothHaveText => CommandError::BothHaveText,
        MirrorError::OtherDocument | MirrorError::NothingKnown | MirrorError::Limit =>
            CommandError::BadState,
    }
}

/// What the last round came to: all is in step, or why it isn't.
pub(crate) fn end_of(outcome: Outcome, cause: Option<CommandError>) -> Result<(), CommandError> {
    match outcome {
        Outcome::InStep => Ok(()),
        Outcome::NotText => Err(cause.unwrap_or(CommandError::Io)),
        Outcome::Gone => Err(CommandError::Io),
        Outcome::Put | Outcome::Again | Outcome::Busy => Err(CommandError::NotQuiet),
    }
}

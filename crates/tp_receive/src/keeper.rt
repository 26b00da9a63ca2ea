//! Who is asked to keep a change before it enters.

ghost use Rattle.std.specs.Prelude.{◌≡◌, OnOk, IfErr};
ghost use Rattle.tp_receive.specs.declared.keeper.KeepError.{KeepError};
ghost use Rattle.tp_layout.specs.declared.parts.ChangeParts.{ChangeParts};

use thiserror::Error;
use tp_change::Change;

/// Why a change wasn't kept.
#[derive(Clone, Copy, Debug, PartialEq, Eq, Error)]
pub enum KeepError {
    /// The slot where it is kept failed.
    #[error("NotKept")]
    NotKept,
    /// A growth was refused.
    #[error("OutOfMemory")]
    OutOfMemory,
}

/// Keeps each change before it enters, as a journal does.
pub trait Keeper: Drop {
    /// The keeper before, a change that it kept, and the keeper after.
    ghost keeps: { Self → ChangeParts → Self → Type 0 };

    /// The keeper before, a change that it refused, why, and the keeper after.
    ghost refuses: { Self → ChangeParts → KeepError → Self → Type 0 };

    /// Keeps the change. A refusal leaves the keeper as its relation says.
    fn keep(&mut self, change: &Change) -> Result<(), KeepError>
        ensures ok { OnOk result (keeps self.old change.now self.new) }
        ensures err { IfErr result (λ e. refuses self.old change.now e self.new) };
}

/// A keeper that keeps nothing and never refuses.
#[derive(Clone, Copy, Debug, Drop)]
pub struct NoKeeper;

impl Keeper for NoKeeper {
    ghost keeps = { λ a c b. a ≡ b };

    ghost refuses = { λ a c e b. ⊥ };

    fn keep(&mut self, _change: &Change) -> Result<(), KeepError> {
        Ok(())
    }
}

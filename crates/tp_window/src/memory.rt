//! The heads of a window's last answers, each under a number.

ghost use Rattle.std.specs.Prelude.{◌+◌, ◌^◌, ◌<◌, vec_len};

use std::alloc::{AllocError, Global};
use tp_opid::Hash;

// The heads of this many answers are kept.
const MOST_KEPT: usize = 8;

/// The heads of the last few answers to a page, each under its number. The numbers rise by one.
#[derive(Drop)]
pub(crate) struct Memory {
    // The number of the first that are kept.
    first: u64,
    kept: Vec<Vec<Hash>>,
    ghost counted: { first + vec_len kept < 2 ^ 64 },
}

impl Memory {
    ghost use Rattle.std.specs.Prelude.{◌≡◌, ◌⊎◌, ℕ, List, IfNone, IfSome, OnOk};
    ghost use Rattle.tp_opid.specs.declared.hash.Hash.{Hash as HashOf};
    ghost use Rattle.tp_window.specs.Numbers.{HadHeads, next_number};

    /// A memory of nothing, which takes no memory. The first answer has the number 1.
    pub(crate) fn new(alloc: Global) -> Memory
        ensures first { next_number result ≡ 1 }
        ensures none { (n : ℕ) (H : List HashOf) → HadHeads result n H → ⊥ }
    {
        Memory {
            first: 1,
            kept: Vec::new(alloc),
        }
    }

    /// The number of the next answer that has heads.
    pub(crate) fn next_number(&self) -> u64
        ensures { result ≡ next_number self.now }
    {
        self.first + self.kept.len() as u64
    }

    /// The heads of the answer with the number; `None` where there was none, or where they are forgotten.
    pub(crate) fn heads(&self, number: u64) -> Option<&[Hash]>
        ensures found { IfSome result (λ heads. HadHeads self.now number heads.now) }
        ensures forgotten { IfNone result ((H : List HashOf) → HadHeads self.now number H → ⊥) }
    {
        let at = number.checked_sub(self.first)?;
        let heads = self.kept.get(at as usize)?;
        Some(heads.as_slice())
    }

    // Forgets the first, where there are as many as may be kept.
    fn make_room(&mut self)
        ensures next { next_number self.new ≡ next_number self.old }
        ensures before { (n : ℕ) (H : List HashOf) → HadHeads self.new n H → HadHeads self.old n H }
        ensures stay { (n : ℕ) (H : List HashOf) → HadHeads self.old n H
            → next_number self.old < n + MOST_KEPT → HadHeads self.new n H }
    {
        if self.kept.len() >= MOST_KEPT {
            let _ = self.kept.remove(0);
            self.first += 1;
        }
    }

    /// Keeps the heads under the next number. Those of the seven answers before stay; where memory runs out, no others come.
    pub(crate) fn remember(&mut self, heads: Vec<Hash>) -> Result<(), AllocError>
        ensures ok { OnOk result (HadHeads self.new (next_number self.old) heads.items) }
        ensures next { OnOk result (next_number self.new ≡ next_number self.old + 1) }
        ensures stay { (n : ℕ) (H : List HashOf) → HadHeads self.old n H
            → next_number self.old < n + MOST_KEPT → HadHeads self.new n H }
        ensures before { (n : ℕ) (H : List HashOf) → HadHeads self.new n H
            → HadHeads self.old n H ⊎ ((n ≡ next_number self.old) × (H ≡ heads.items)) }
    {
        if self.next_number() == u64::MAX {
            return Err(AllocError);
        }
        self.make_room();
        self.kept.push(heads)?;
        Ok(())
    }
}

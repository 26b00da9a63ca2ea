//! Chance, the same in every run.

/// Numbers that chance picks.
#[derive(Drop)]
pub struct Chance {
    state: u64,
}

impl Chance {
    /// Begins anew.
    pub fn new() -> Chance {
        Chance { state: 1 }
    }

    /// A number below the limit.
    pub fn below(&mut self, limit: u64) -> u64 {
        self.state = self
            .state
            .wrapping_mul(6_364_136_223_846_793_005)
            .wrapping_add(1_442_695_040_888_963_407);
        (self.state >> 33) % limit.max(1)
    }
}

//! What a workload is made of: its seed, and how large it is.

/// A seed, and how many hundredths of a workload are done.
#[derive(Clone, Copy)]
pub struct Size {
    /// The seed.
    pub seed: u64,
    percent: usize,
}

impl Size {
    /// What the words say.
    pub fn of(seed: &str, percent: &str) -> anyhow::Result<Size> {
        Ok(Size {
            seed: seed.parse::<u64>()?,
            percent: percent.parse::<usize>()?,
        })
    }

    /// How many of `count` are done, one at least.
    pub fn share(self, count: usize) -> usize {
        (count.saturating_mul(self.percent) / 100).max(1)
    }
}

// Numbers that look random, the same in each run.

/// A linear congruential generator.
#[derive(Clone, Copy)]
pub struct Draw {
    state: u64,
}

impl Draw {
    /// The numbers of this seed.
    pub fn new(seed: u64) -> Self {
        Draw { state: seed }
    }

    /// The next number below a limit, which is not 0.
    pub fn below(&mut self, limit: u64) -> u64 {
        self.state = self
            .state
            .wrapping_mul(6_364_136_223_846_793_005)
            .wrapping_add(1_442_695_040_888_963_407);
        (self.state >> 33).checked_rem(limit).unwrap_or(0)
    }

    /// True once in so many draws.
    pub fn once_in(&mut self, limit: u64) -> bool {
        self.below(limit) == 0
    }
}

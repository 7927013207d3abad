// Numbers that are drawn from a seed.

// A linear congruential generator; the upper half of its word is drawn.
pub struct Draws {
    word: u64,
}

impl Drop for Draws {
    fn drop(self) {
        let Draws { word: _ } = self;
    }
}

impl Draws {
    // The draws of a seed.
    pub fn new(seed: u64) -> Draws {
        let mut draws = Draws {
            word: seed.wrapping_mul(0x9E37_79B9_7F4A_7C15),
        };
        for _ in 0..4 {
            draws.below(2);
        }
        draws
    }

    // A number below the bound, which is at least 1.
    pub fn below(&mut self, bound: u64) -> u64 {
        self.word = self
            .word
            .wrapping_mul(6_364_136_223_846_793_005)
            .wrapping_add(1_442_695_040_888_963_407);
        (self.word >> 32) % bound.max(1)
    }

    // One of this many, at most 255, from 0.
    pub fn pick(&mut self, count: u8) -> u8 {
        u8::try_from(self.below(u64::from(count))).unwrap_or(0)
    }

    // True once in this number of draws.
    pub fn is_one_in(&mut self, times: u64) -> bool {
        self.below(times) == 0
    }

    // A number of microseconds, 1 to 2 to this power, short times as often as long ones.
    pub fn micros_to(&mut self, power: u64) -> u64 {
        let mut micros: u64 = 1;
        for _ in 0..self.below(power.saturating_add(1)) {
            micros = micros.saturating_mul(2);
        }
        micros
    }
}

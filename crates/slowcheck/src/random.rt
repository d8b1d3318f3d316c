//! Numbers that look random, the same in every run.
ghost use Rattle.std.specs.Prelude.{◌<◌, ◌⊎◌};

// Stays: a generator of its own, since what is drawn, and so what is printed, goes by these very numbers.
#[derive(Drop)]
pub struct Random {
    state: u64,
}

impl Random {
    pub fn new(seed: u64) -> Random {
        Random { state: seed }
    }

    fn next(&mut self) -> u64 {
        let state = self.state;
        self.state = state
            .wrapping_mul(6364136223846793005)
            .wrapping_add(1442695040888963407);
        self.state >> 33
    }

    /// A number below `end`.
    // Stays: `byte_below(8)` is plainer than a call that makes a number above 0 of the 8.
    pub fn below(&mut self, end: usize) -> usize
        requires { 0 < end }
        ensures { result < end }
    {
        self.next() as usize % end
    }

    /// A byte below `end`.
    pub fn byte_below(&mut self, end: u8) -> u8
        requires { 0 < end }
        ensures { result < end }
    {
        (self.next() % end as u64) as u8
    }

    /// Any byte.
    pub fn byte(&mut self) -> u8 {
        (self.next() % 256) as u8
    }

    /// True so many times in a hundred.
    pub fn chance(&mut self, percent: usize) -> bool {
        self.below(100) < percent
    }

    /// A byte below `end` so many times in a hundred, and else one below `other`.
    pub fn byte_below_either(&mut self, percent: usize, end: u8, other: u8) -> u8
        requires { (0 < end) × (0 < other) }
        ensures { (result < end) ⊎ (result < other) }
    {
        if self.chance(percent) {
            self.byte_below(end)
        } else {
            self.byte_below(other)
        }
    }

    /// 0 so many times in a hundred, and else a byte below `end`.
    pub fn zero_or_below(&mut self, percent: usize, end: u8) -> u8
        requires { 0 < end }
        ensures { result < end }
    {
        if self.chance(percent) {
            0
        } else {
            self.byte_below(end)
        }
    }
}

//! Random numbers, the same ones each time.
ghost use Rattle.std.specs.Prelude.{◌<◌};

/// Numbers that follow from a seed.
#[derive(Drop)]
pub struct Random {
    state: u64,
}

impl Random {
    /// The numbers of a seed other than 0.
    pub fn new(seed: u64) -> Random {
        Random { state: seed }
    }

    /// The next number, below a bound.
    pub fn below(&mut self, bound: u64) -> u64
        requires { 0 < bound }
        ensures { result < bound }
    {
        let mut state = self.state;
        state ^= state << 13;
        state ^= state >> 7;
        state ^= state << 17;
        self.state = state;
        state % bound
    }

    /// The place of one of so many things; 0 where there is none.
    pub fn place(&mut self, count: usize) -> usize {
        if count == 0 {
            return 0;
        }
        self.below(count as u64) as usize
    }

    /// One of these values, or another where there is none.
    pub fn one_of<T: Copy>(&mut self, values: &[T], otherwise: T) -> T {
        let place = self.place(values.len());
        values.get(place).copied().unwrap_or(otherwise)
    }
}

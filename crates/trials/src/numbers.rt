// Numbers that look random, the same in each run.
ghost use Rattle.std.specs.Prelude.{◌<◌};

// A linear congruential generator.
#[derive(Drop)]
pub struct Numbers {
    state: u64,
}

impl Numbers {
    pub fn new(seed: u64) -> Numbers {
        Numbers { state: seed }
    }

    // The next number, below n. The low bits of the state are poor, so they are left out.
    pub fn below(&mut self, n: u32) -> u32
        requires { 0 < n }
        ensures { result < n }
    {
        self.state = self
            .state
            .wrapping_mul(6364136223846793005)
            .wrapping_add(1442695040888963407);
        (self.state >> 33) as u32 % n
    }
}

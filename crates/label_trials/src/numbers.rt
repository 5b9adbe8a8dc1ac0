ghost use Rattle.std.specs.Prelude.{◌-◌, ◌≤◌};

// Numbers that look random and are the same on every run.
#[derive(Drop)]
pub struct Numbers {
    state: u64,
}

impl Numbers {
    pub(crate) fn new(seed: u64) -> Numbers {
        Numbers { state: seed }
    }

    // A number below `n`, or 0 where nothing is.
    pub(crate) fn below(&mut self, n: u8) -> u8
        ensures { result ≤ n - 1 }
    {
        self.state = self
            .state
            .wrapping_mul(6364136223846793005)
            .wrapping_add(1442695040888963407);
        let high = ((self.state >> 56) & 0xff) as u8;
        if n == 0 { 0 } else { high % n }
    }
}

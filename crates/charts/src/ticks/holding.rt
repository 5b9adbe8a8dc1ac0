ghost use Rattle.std.specs.Prelude.{◌≡◌, ℕ, false, ◌&&◌, ◌||◌, ◌==◌, nat_lt};
ghost use Rattle.charts.specs.TickSets.{has};

use crate::ticks::Ticks;

impl Ticks {
    pub fn none() -> Ticks
        ensures { (t : ℕ) → has result t ≡ false }
    {
        Ticks { bits: 0 }
    }

    // Whether a tick is in the set; one above 63 is in none.
    pub fn has(self, tick: u8) -> bool
        ensures { result ≡ has self tick }
    {
        tick < 64 && (self.bits >> tick) & 1 == 1
    }

    // The set with one tick more, unless that is above 63.
    pub fn with(self, tick: u8) -> Ticks
        ensures { (t : ℕ) → has result t ≡ (has self t || (nat_lt tick 64 && tick == t)) }
    {
        if tick > 63 {
            return self;
        }
        Ticks {
            bits: self.bits | (1 << tick),
        }
    }
}

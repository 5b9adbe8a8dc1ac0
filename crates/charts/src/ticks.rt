ghost use Rattle.std.specs.Prelude.{◌^◌, ◌<◌};

mod holding;

// A set of ticks from 0 to 63, one to a bit.
#[derive(Clone, Copy)]
pub struct Ticks {
    bits: u64,
    ghost fits: { bits < 2 ^ 64 },
}

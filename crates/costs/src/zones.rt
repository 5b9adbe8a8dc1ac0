ghost use Rattle.std.specs.Prelude.{◌^◌, ◌<◌};

// A set of zones, one to a bit.
#[derive(Clone, Copy, PartialEq, Eq, PartialOrd, Ord, Debug)]
pub struct Zones {
    pub bits: u64,
    ghost fits: { bits < 2 ^ 64 },
}

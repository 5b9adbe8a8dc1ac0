ghost use Rattle.std.specs.Prelude.{◌^◌, ◌<◌};

// The largest of what was joined.
#[derive(Clone, Copy, PartialEq, Eq, PartialOrd, Ord, Debug)]
pub struct Worst {
    pub value: u16,
    ghost fits: { value < 2 ^ 16 },
}

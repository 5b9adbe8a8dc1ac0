use crate::numbers::Numbers;
use costs::{CostKind, Pair, Total, Worst, Zones};

// A kind of cost whose tariff lines can be made from numbers. They are few, so that walks of equal costs occur. `label_times` has the like for words,
// whose lines can be wrong: one trait for both would put an error here, where none comes.
pub trait Generated: CostKind + PartialEq {
    fn generate(numbers: &mut Numbers) -> Self;
}

impl Generated for Total {
    fn generate(numbers: &mut Numbers) -> Total {
        Total {
            value: u32::from(numbers.below(4)),
        }
    }
}

impl Generated for Worst {
    fn generate(numbers: &mut Numbers) -> Worst {
        Worst {
            value: u16::from(numbers.below(4)),
        }
    }
}

impl<A: Generated, B: Generated> Generated for Pair<A, B> {
    fn generate(numbers: &mut Numbers) -> Pair<A, B> {
        Pair {
            first: A::generate(numbers),
            second: B::generate(numbers),
        }
    }
}

// Up to three of the zones 0 to 2, or zone 63.
impl Generated for Zones {
    fn generate(numbers: &mut Numbers) -> Zones {
        let low = u64::from(numbers.below(8));
        let bits = if numbers.below(4) == 0 { 1 << 63 } else { low };
        Zones { bits }
    }
}

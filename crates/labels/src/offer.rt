ghost use Rattle.std.specs.Prelude.{◌≤◌};

use crate::arrivals::Arrivals;

// An offer: a cost, the row of the label that has it, and the tick at which that arrives, among the labels that arrive.
#[derive(Drop)]
pub struct Offer<'a, C> {
    pub arrivals: &'a Arrivals<'a, C>,
    pub cost: C,
    pub label: u16,
    pub tick: u8,
    ghost timely: { tick ≤ arrivals.now.landing.horizon },
}

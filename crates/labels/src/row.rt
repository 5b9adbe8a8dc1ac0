ghost use Rattle.std.specs.Prelude.{◌≡◌};

use costs::CostKind;

// A label: a cost, the row of the label that it goes on from, and the place that it reaches.
#[derive(Clone, Copy)]
pub struct LabelRow<C> {
    pub cost: C,
    pub parent: u16,
    pub place: u8,
}

impl<C: CostKind> LabelRow<C> {
    // A row that no label has been written into.
    pub fn blank() -> LabelRow<C>
        ensures { result ≡ record { cost = C.CostKind.kind.zero; parent = 0; place = 0 } }
    {
        LabelRow {
            cost: C::zero(),
            parent: 0,
            place: 0,
        }
    }
}

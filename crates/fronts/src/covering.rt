ghost use Rattle.std.specs.Prelude.{◌≡◌};
ghost use Rattle.rules.specs.Fronts.{covered};
ghost use Rattle.fronts.specs.Rows.{in_use};

use crate::row::Row;
use costs::CostKind;

// Whether one of the first `len` rows costs at most `cost`.
pub fn covers<C: CostKind>(rows: &[Row<C>], len: usize, cost: C) -> bool
    ensures { result ≡ covered C.CostKind.kind (in_use len rows.now) cost }
{
    rows.iter().take(len).any(|row| row.cost.at_most(cost))
}

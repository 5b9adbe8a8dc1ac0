ghost use Rattle.std.specs.Prelude.{◌≡◌, length};
ghost use Rattle.rules.specs.Fronts.{unbeaten};
ghost use Rattle.fronts.specs.Rows.{in_use};
ghost use Rattle.fronts.specs.Changes.{Holds};

use crate::row::Row;
use costs::CostKind;

// How many of the first `len` rows stay where those that `cost` is at most are removed.
pub fn count_unbeaten<C: CostKind>(rows: &[Row<C>], len: usize, cost: C) -> usize
    ensures { result ≡ length (unbeaten C.CostKind.kind (in_use len rows.now) cost) }
{
    rows.iter()
        .take(len)
        .filter(|row| !cost.at_most(row.cost))
        .count()
}

// Removes those of the first `len` rows that `cost` is at most, keeps the others in their order, and says how many those are.
pub fn remove_beaten<C: CostKind>(rows: &mut [Row<C>], len: usize, cost: C) -> usize
    ensures { Holds (unbeaten C.CostKind.kind (in_use len rows.old) cost) rows.old rows.new result }
{
    // A slice that is lent has no `retain`: the rows that stay move up in it, each to a place that was read before.
    let mut n = 0;
    for i in 0..len.min(rows.len()) {
        let row = rows[i];
        if !cost.at_most(row.cost) {
            rows[n] = row;
            n += 1;
        }
    }
    n
}

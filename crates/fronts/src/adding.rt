ghost use Rattle.fronts.specs.Rows.{entry_of, in_use};
ghost use Rattle.fronts.specs.Changes.{Adds};

use crate::added::Added;
use crate::covering::covers;
use crate::inserting::put;
use crate::removing::{count_unbeaten, remove_beaten};
use crate::row::Row;
use costs::CostKind;

// Adds a row to the front in the first `len` rows: nothing changes where one of them covers its cost; else those that its cost
// is at most are removed and it stands at its place. Where those that stay fill the slice, nothing changes either.
#[tactic(auto, using(crate::proofs::Additions::holds_within))]
pub fn add<C: CostKind>(rows: &mut [Row<C>], len: usize, row: Row<C>) -> Added
    ensures { Adds C.CostKind.kind (in_use len rows.old) (entry_of row) rows.old rows.new result }
{
    if covers(rows, len, row.cost) {
        return Added::Covered;
    }
    // While a row is free, those that stay leave it free: they are counted only where none is.
    if len >= rows.len() && count_unbeaten(rows, len, row.cost) >= rows.len() {
        return Added::NoRow;
    }
    let stay = remove_beaten(rows, len, row.cost);
    put(rows, stay, row);
    Added::Listed(stay + 1)
}

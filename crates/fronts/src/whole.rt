ghost use Rattle.fronts.specs.Whole.{Fronted};

use crate::added::Added;
use crate::list::FrontList;
use crate::row::Row;
use costs::CostKind;

// Takes the given rows one by one into an empty list over `rows`: it then holds exactly their front, and the answer is its length.
// Where a row finds no row left, the answer is none.
// Rows behind the front may hold rows that were listed for a time; those that no first part's front reaches are as they were.
pub fn front_of<C: CostKind>(given: &[Row<C>], rows: &mut [Row<C>]) -> Option<usize>
    ensures { Fronted C.CostKind.kind given.now rows.old rows.new result }
{
    let mut list = FrontList::new(rows);
    // by number: of a `for` over the rows themselves no edit is refused for leaving out the first one, but only for how it is written
    for i in 0..given.len() {
        if let Added::NoRow = list.add(given[i]) {
            return None;
        }
    }
    Some(list.used())
}

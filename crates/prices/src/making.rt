ghost use Rattle.std.specs.Prelude.{IfOk};
ghost use Rattle.std.specs.List.{ContainsAt as Has};
ghost use Rattle.rules.specs.Fronts.{Front};
ghost use Rattle.fronts.specs.Rows.{entries};
ghost use Rattle.fronts.specs.Whole.{costs_of};
ghost use Rattle.prices.specs.PriceLists.{costs_in};
ghost use Rattle.prices.specs.Answers.{PageMade, Answers, output};

use crate::page::write_page;
use crate::priced::Priced;
use crate::reading::read_list;
use crate::refusal::{Fault, Refusal};
use costs::CostKind;
use fronts::{Row, front_of};
use pages::{MOST_BYTES, Stop, or_line};
use std::alloc::{AllocError, Global};

// The front of the given rows.
fn front_rows<C: CostKind>(given: &[Row<C>], heap: Global) -> Result<Vec<Row<C>>, AllocError>
    ensures { IfOk result (λ v. Front C.CostKind.kind (Has (costs_of (entries given.now))) (costs_in v)) }
{
    let mut rows = Vec::from_slice(heap, given)?;
    let kept = front_of(given, rows.as_mut_slice()).unwrap();
    rows.truncate(kept);
    Ok(rows)
}

// The page for a price list.
fn make_page<C: Priced>(input: &[u8], heap: Global) -> Result<Vec<u8>, Stop<Refusal>>
    ensures { PageMade C.Priced.line C.Priced.large C.Text.text C.CostKind.kind input.now result }
{
    if input.len() > MOST_BYTES {
        return Err(Stop::Refused(Refusal {
            line: 0,
            fault: Fault::TooManyBytes,
        }));
    }
    let given = read_list::<C>(input, heap)?;
    let front = front_rows(given.as_slice(), heap)?;
    let page = write_page(front.as_slice(), given.len(), heap)?;
    Ok(page)
}

// What is printed for a price list.
pub(crate) fn answer_list<C: Priced>(
    input: &[u8],
    heap: Global,
) -> Result<Result<Vec<u8>, String>, AllocError>
    ensures { IfOk result (λ a. Answers C.Priced.line C.Priced.large C.Text.text C.CostKind.kind input.now (output a)) }
{
    or_line(make_page::<C>(input, heap), heap)
}

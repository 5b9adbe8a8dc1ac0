ghost use Rattle.prices.specs.PriceLists.{ListRead};

use crate::priced::Priced;
use crate::refusal::{Fault, Refusal};
use digits::split_once;
use fronts::Row;
use pages::Stop;
use std::alloc::Global;

// The costs that a price list says, in its order. Their tags say nothing.
pub(crate) fn read_list<C: Priced>(input: &[u8], heap: Global) -> Result<Vec<Row<C>>, Stop<Refusal>>
    ensures { ListRead C.Priced.line C.Priced.large input.now result }
{
    let mut rows = Vec::new(heap);
    let mut rest = input;
    while let Some((bytes, below)) = split_once(rest, b'\n') {
        let line = rows.len() + 1;
        let cost = C::read_line(bytes).map_err(|fault| Refusal {
            line,
            fault: Fault::Line(fault),
        })?;
        rows.push(Row { cost, tag: 0 })?;
        rest = below;
    }
    if !rest.is_empty() {
        return Err(Stop::Refused(Refusal {
            line: rows.len() + 1,
            fault: Fault::NoNewline,
        }));
    }
    Ok(rows)
}

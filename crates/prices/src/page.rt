ghost use Rattle.std.specs.Prelude.{◌≡◌, IfOk};
ghost use Rattle.fronts.specs.Rows.{entries};
ghost use Rattle.fronts.specs.Whole.{costs_of};
ghost use Rattle.prices.specs.Pages.{page};

use costs::CostKind;
use fronts::Row;
use pages::push_line;
use std::alloc::{AllocError, Global};

// The page for the rows that are kept of `read` costs.
pub(crate) fn write_page<C: CostKind>(
    rows: &[Row<C>],
    read: usize,
    heap: Global,
) -> Result<Vec<u8>, AllocError>
    ensures { IfOk result (λ v. v.items ≡ page C.Text.text (costs_of (entries rows.now)) read) }
{
    let mut out = Vec::new(heap);
    for row in rows {
        push_line(&mut out, b"", &row.cost, heap)?;
    }
    let kept = rows.len();
    let last = format!(in heap; "kept {kept} of {read}\n")?;
    out.extend_from_slice(last.as_bytes())?;
    Ok(out)
}

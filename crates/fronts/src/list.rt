ghost use Rattle.std.specs.Prelude.{◌≤◌, length};

mod methods;

use crate::row::Row;

// A front in the first `len` rows of a lent slice, which has no fewer.
#[derive(Drop)]
pub struct FrontList<'a, C> {
    rows: &'a mut [Row<C>],
    len: usize,
    ghost within: { len ≤ length rows.now },
}

ghost use Rattle.std.specs.Prelude.{◌≤◌, length};

mod methods;

use crate::row::LabelRow;

// The labels in the first `count` of the lent rows.
#[derive(Drop)]
pub struct LabelList<'a, C> {
    pub rows: &'a mut [LabelRow<C>],
    pub count: usize,
    ghost within: { count ≤ length rows.now },
    ghost few: { length rows.now ≤ 65535 },
}

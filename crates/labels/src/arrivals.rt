ghost use Rattle.labels.specs.Landings.{Lands};

use crate::landing::Landing;
use crate::row::LabelRow;

// The labels that arrive: the rows of all labels, where each cell begins in them, and which cells are the goal's.
#[derive(Drop)]
pub struct Arrivals<'a, C> {
    pub rows: &'a [LabelRow<C>],
    pub starts: &'a [u16],
    pub landing: Landing,
    ghost lands: { Lands rows.now starts.now landing },
}

ghost use Rattle.std.specs.Prelude.{◌≡◌, ◌≤◌, [], ◌∷◌, length, take, drop, None};
ghost use Rattle.labels.specs.Lists.{listed, Grown};
ghost use Rattle.labels.specs.Picks.{last_cost};
ghost use Rattle.labels.specs.Rows.{shown_row};

use crate::list::LabelList;
use crate::row::LabelRow;
use crate::rows::RowsSoFar;
use costs::CostKind;

impl<'a, C: CostKind> LabelList<'a, C> {
    // No labels yet.
    pub(crate) fn new(rows: &'a mut [LabelRow<C>]) -> Self
        requires { length rows.old ≤ 65535 }
        ensures count { result.count ≡ 0 }
        ensures rows { result.rows.now ≡ rows.old }
        ensures same { result.rows.ghost_name ≡ rows.entry.ghost_name }
    {
        LabelList { rows, count: 0 }
    }

    // The rows so far, of which those from `start` on are of the cell that is being filled.
    pub(crate) fn so_far(&self, start: usize) -> RowsSoFar<'_, C>
        requires { start ≤ self.now.count }
        ensures rows { result.rows.now ≡ take self.now.count self.now.rows.now }
        ensures start { result.start ≡ start }
        ensures last { result.last ≡ last_cost C.CostKind.kind None (drop start (listed self.now)) }
    {
        RowsSoFar::new(&self.rows[..self.count], start)
    }

    // One label more, if there is room.
    pub(crate) fn push(&mut self, row: LabelRow<C>) -> Option<()>
        ensures { Grown self.old self.new (shown_row (listed self.old) row ∷ []) result }
    {
        if self.count == self.rows.len() {
            return None;
        }
        // Through `get_mut` a proof would not know what the rows then hold.
        self.rows[self.count] = row;
        self.count += 1;
        Some(())
    }
}

ghost use Rattle.std.specs.Prelude.{◌≡◌, ◌+◌, ◌<◌, ◌≤◌, [], ◌∷◌, ◌++◌, length, take, slice_index_or};
ghost use Rattle.rules.specs.Fronts.{front_of};
ghost use Rattle.labels.specs.Cells.{Ready};
ghost use Rattle.labels.specs.Lists.{Grown};
ghost use Rattle.labels.specs.Queries.{asked, row_of, place_count, reaching};
ghost use Rattle.labels.specs.Seeking.{busy_at};
ghost use Rattle.labels.specs.Tables.{Hold, Laid, LaidBefore, cells_before};

use crate::cell::Cell;
use crate::layer::Layer;
use crate::limits::STARTS;
use crate::list::LabelList;
use crate::open_cell::OpenCell;
use crate::row::LabelRow;
use crate::search::Search;
use carts::Constrains;
use costs::CostKind;
use floors::Floor;

impl<F: Floor, C: CostKind, B: Constrains> Search<'_, F, C, B> {
    // The labels that come to the cell, as rows from the first `n` on.
    fn fill_front(&self, cell: Cell, list: &mut LabelList<C>, starts: &[u16; STARTS]) -> Option<()>
        requires place { cell.place < place_count (asked F.Floor.moves C.CostKind.kind B.Constrains.constraint self.now.query.now) }
        requires ready { Ready (asked F.Floor.moves C.CostKind.kind B.Constrains.constraint self.now.query.now) cell (take list.old.count list.old.rows.now) starts.now }
        ensures { Grown list.old list.new (front_of C.CostKind.kind (reaching (asked F.Floor.moves C.CostKind.kind B.Constrains.constraint self.now.query.now) cell.tick cell.place)) result }
    {
        let start = list.count;
        let moves = self.index.moves_to(cell.place);
        while let Some(row) = (OpenCell {
            search: self,
            moves,
            cell,
            so_far: list.so_far(start),
            starts,
        })
        .next_label()
        {
            list.push(row)?;
        }
        Some(())
    }

    // The cell of a place at tick 0: the cart's start, if it may be there.
    fn first_cell(&self, busy: bool, place: u8, list: &mut LabelList<C>) -> Option<()>
        requires place { place < place_count (asked F.Floor.moves C.CostKind.kind B.Constrains.constraint self.now.query.now) }
        requires busy { busy ≡ busy_at (asked F.Floor.moves C.CostKind.kind B.Constrains.constraint self.now.query.now) 0 }
        ensures { Grown list.old list.new (slice_index_or (row_of (asked F.Floor.moves C.CostKind.kind B.Constrains.constraint self.now.query.now) 0) place []) result }
    {
        let query = self.query;
        if place == query.carts[query.cart as usize].start && query.may_be(busy, place, 0) {
            list.push(LabelRow {
                cost: C::zero(),
                // goes on from no row: the rows are lent by callers, and a number keeps them small
                parent: u16::MAX,
                place,
            })
        } else {
            Some(())
        }
    }

    // The cell of a place at the tick of a layer, after the one before.
    fn later_cell(
        &self,
        before: Layer,
        layer: Layer,
        place: u8,
        list: &mut LabelList<C>,
        starts: &[u16; STARTS],
    ) -> Option<()>
        requires place { place < place_count (asked F.Floor.moves C.CostKind.kind B.Constrains.constraint self.now.query.now) }
        requires laid { Laid (asked F.Floor.moves C.CostKind.kind B.Constrains.constraint self.now.query.now) layer }
        requires laid_before { LaidBefore (asked F.Floor.moves C.CostKind.kind B.Constrains.constraint self.now.query.now) layer.tick (Some before) }
        requires held { Hold list.old.rows.now starts.now (cells_before (asked F.Floor.moves C.CostKind.kind B.Constrains.constraint self.now.query.now) layer.tick ++ take place (row_of (asked F.Floor.moves C.CostKind.kind B.Constrains.constraint self.now.query.now) layer.tick)) list.old.count }
        ensures { Grown list.old list.new (slice_index_or (row_of (asked F.Floor.moves C.CostKind.kind B.Constrains.constraint self.now.query.now) layer.tick) place []) result }
    {
        let query = self.query;
        if !query.may_be(layer.busy, place, layer.tick) {
            return Some(());
        }
        let cell = Cell {
            tick: before.tick,
            place,
            barred: query.is_barred(before.busy, place, before.tick),
            base: before.base,
        };
        self.fill_front(cell, list, starts)
    }

    // The cell of a place, after those before it.
    pub(crate) fn fill_cell(
        &self,
        before: Option<Layer>,
        layer: Layer,
        place: u8,
        list: &mut LabelList<C>,
        starts: &[u16; STARTS],
    ) -> Option<()>
        requires place { place < place_count (asked F.Floor.moves C.CostKind.kind B.Constrains.constraint self.now.query.now) }
        requires laid { Laid (asked F.Floor.moves C.CostKind.kind B.Constrains.constraint self.now.query.now) layer }
        requires laid_before { LaidBefore (asked F.Floor.moves C.CostKind.kind B.Constrains.constraint self.now.query.now) layer.tick before }
        requires held { Hold list.old.rows.now starts.now (cells_before (asked F.Floor.moves C.CostKind.kind B.Constrains.constraint self.now.query.now) layer.tick ++ take place (row_of (asked F.Floor.moves C.CostKind.kind B.Constrains.constraint self.now.query.now) layer.tick)) list.old.count }
        ensures { Grown list.old list.new (slice_index_or (row_of (asked F.Floor.moves C.CostKind.kind B.Constrains.constraint self.now.query.now) layer.tick) place []) result }
    {
        match before {
            None => self.first_cell(layer.busy, place, list),
            Some(before) => self.later_cell(before, layer, place, list, starts),
        }
    }
}

ghost use Rattle.std.specs.Prelude.{◌≡◌, ◌<◌, drop, None, slice_index_or};
ghost use Rattle.labels.specs.Queries.{asked, place_count, reaching};
ghost use Rattle.labels.specs.Cells.{Ready, Selects, by_one};
ghost use Rattle.labels.specs.Rows.{shown};
ghost use Rattle.charts.specs.Indexes.{inbound_of};

use crate::cell::Cell;
use crate::row::LabelRow;
use crate::rows::RowsSoFar;
use crate::search::Search;
use carts::Constrains;
use charts::Inbound;
use costs::CostKind;
use floors::Floor;

// What a tariff line costs.
fn price_of<C: CostKind>(tariff: &[C], line: u16) -> C
    ensures { result ≡ slice_index_or tariff.now line C.CostKind.kind.zero }
{
    tariff.get(line as usize).copied().unwrap_or(C::zero())
}

// A cell that is being filled, after the rows so far.
#[derive(Drop)]
pub struct OpenCell<'search, 'query, 'rows, 'starts, F: Floor, C: CostKind, B: Constrains> {
    pub search: &'search Search<'query, F, C, B>,
    // the moves that reach the place: sought once for all labels of the cell
    pub moves: &'search [Inbound],
    pub cell: Cell,
    pub so_far: RowsSoFar<'rows, C>,
    pub starts: &'starts [u16],
    ghost reached: { moves.now ≡ inbound_of (F.Floor.moves search.now.query.now.floor.now) cell.place },
    ghost place: { cell.place < place_count (asked F.Floor.moves C.CostKind.kind B.Constrains.constraint search.now.query.now) },
    ghost ready: { Ready (asked F.Floor.moves C.CostKind.kind B.Constrains.constraint search.now.query.now) cell so_far.rows.now starts.now },
}

impl<F: Floor, C: CostKind, B: Constrains> OpenCell<'_, '_, '_, '_, F, C, B> {
    // The best so far, once the labels at the place that a move leaves have gone by it to the cell.
    fn by_move(&self, step: Inbound, best: Option<LabelRow<C>>) -> Option<LabelRow<C>>
        requires { step.from < place_count (asked F.Floor.moves C.CostKind.kind B.Constrains.constraint self.now.search.now.query.now) }
        ensures { Selects C.CostKind.kind self.now.so_far.rows.now self.now.so_far.start self.now.so_far.last best (by_one (asked F.Floor.moves C.CostKind.kind B.Constrains.constraint self.now.search.now.query.now) self.now.cell step) result }
    {
        let query = self.search.query;
        let cell = self.cell;
        if !query.may_go(cell.barred, step.from, cell.place, cell.tick) {
            return best;
        }
        let at = cell.base + step.from as usize;
        self.so_far.along(
            self.starts[at] as usize,
            self.starts[at + 1] as usize,
            price_of(query.tariff, step.line),
            cell.place,
            best,
        )
    }

    // The next label of the cell.
    pub(crate) fn next_label(&self) -> Option<LabelRow<C>>
        ensures { Selects C.CostKind.kind self.now.so_far.rows.now self.now.so_far.start self.now.so_far.last None (reaching (asked F.Floor.moves C.CostKind.kind B.Constrains.constraint self.now.search.now.query.now) self.now.cell.tick self.now.cell.place) result }
    {
        let mut best = None;
        for step in self.moves {
            best = self.by_move(*step, best);
        }
        best
    }
}

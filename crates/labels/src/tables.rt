ghost use Rattle.std.specs.Prelude.{◌≡◌, suc, ◌+◌, ◌<◌, ◌≤◌, length};
ghost use Rattle.labels.specs.Queries.{asked, place_count};
ghost use Rattle.labels.specs.Tables.{Hold, Holding, Filled, Laid, LaidBefore, cells_before};

use crate::layer::Layer;
use crate::limits::STARTS;
use crate::list::LabelList;
use crate::query::Query;
use crate::row::LabelRow;
use crate::search::Search;
use carts::Constrains;
use charts::Index;
use costs::CostKind;
use floors::Floor;

impl<F: Floor, C: CostKind, B: Constrains> Search<'_, F, C, B> {
    // The labels of a tick, after those of the ticks before it.
    fn fill_tick(
        &self,
        before: Option<Layer>,
        layer: Layer,
        list: &mut LabelList<C>,
        starts: &mut [u16; STARTS],
    ) -> Option<()>
        requires laid { Laid (asked F.Floor.moves C.CostKind.kind B.Constrains.constraint self.now.query.now) layer }
        requires laid_before { LaidBefore (asked F.Floor.moves C.CostKind.kind B.Constrains.constraint self.now.query.now) layer.tick before }
        requires held { Hold list.old.rows.now starts.old (cells_before (asked F.Floor.moves C.CostKind.kind B.Constrains.constraint self.now.query.now) layer.tick) list.old.count }
        ensures { Holding list.old list.new starts.new (cells_before (asked F.Floor.moves C.CostKind.kind B.Constrains.constraint self.now.query.now) (suc layer.tick)) result }
    {
        for place in 0..self.query.floor.places() {
            self.fill_cell(before, layer, place, list, starts)?;
            starts[layer.base + place as usize + 1] = list.count as u16;
        }
        Some(())
    }
}

// The labels of the cart, tick by tick and place by place, if there is room for all of them.
pub(crate) fn fill_labels<F: Floor, C: CostKind, B: Constrains>(
    query: &Query<'_, F, C, B>,
    rows: &mut [LabelRow<C>],
    starts: &mut [u16; STARTS],
) -> Option<usize>
    requires few { length rows.old ≤ 65535 }
    requires known { query.now.cart < length query.now.carts.now }
    requires ticks { query.now.horizon ≤ 64 }
    ensures { Filled (asked F.Floor.moves C.CostKind.kind B.Constrains.constraint query.now) rows.new starts.new result }
{
    let index = Index::of(query.floor);
    let search = Search {
        query: &*query,
        index: &index,
    };
    let places = query.floor.places() as usize;
    starts[0] = 0;
    let mut list = LabelList::new(rows);
    let mut before = None;
    // A loop over `0..=query.horizon` would end in two ways, each with its proof.
    for tick in 0..query.horizon + 1 {
        let layer = Layer {
            tick,
            busy: query.is_busy(tick),
            base: tick as usize * places,
        };
        search.fill_tick(before, layer, &mut list, starts)?;
        before = Some(layer);
    }
    Some(list.count)
}

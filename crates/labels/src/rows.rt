ghost use Rattle.std.specs.Prelude.{◌≡◌, ◌≤◌, not, ◌&&◌, length, take, drop, None};
ghost use Rattle.std.specs.Option.{option_map};
ghost use Rattle.rules.specs.Fronts.{covered};
ghost use Rattle.labels.specs.Picks.{leads, picked, last_cost, passed_over};
ghost use Rattle.labels.specs.Rows.{shown, shown_best, extended_by};

use crate::order::is_after;
use crate::row::LabelRow;
use costs::CostKind;

// The rows so far: those from `start` on are of the cell that is being filled, and the last of those costs `last`.
#[derive(Drop)]
pub struct RowsSoFar<'a, C> {
    pub rows: &'a [LabelRow<C>],
    pub start: usize,
    pub last: Option<C>,
    ghost cell: { start ≤ length rows.now },
    ghost few: { length rows.now ≤ 65535 },
}

impl<'a, C: CostKind> RowsSoFar<'a, C> {
    // The rows so far, of which those from `start` on are the cell's.
    pub(crate) fn new(rows: &'a [LabelRow<C>], start: usize) -> Self
        requires cell { start ≤ length rows.now }
        requires few { length rows.now ≤ 65535 }
        ensures rows { result.rows.now ≡ rows.now }
        ensures start { result.start ≡ start }
        ensures last { result.last ≡ last_cost C.CostKind.kind None (drop start (shown rows.now)) }
    {
        let last = rows[start..].last().map(|row| row.cost);
        RowsSoFar { rows, start, last }
    }

    // Whether some row of the cell costs at most `c`.
    fn covers(&self, c: C) -> bool
        ensures { result ≡ covered C.CostKind.kind (drop self.now.start (shown self.now.rows.now)) c }
    {
        self.rows[self.start..]
            .iter()
            .any(|row| row.cost.at_most(c))
    }

    // Whether `c` may be the cost of the next row of the cell: it comes after the last one's, and no row of the cell covers it.
    // What does not come after the last one's cost is covered; that test is the cheap one.
    fn may_follow(&self, c: C) -> bool
        ensures { result ≡ not (passed_over C.CostKind.kind self.now.last (drop self.now.start (shown self.now.rows.now)) c) }
    {
        is_after(self.last, c) && !self.covers(c)
    }

    // Whether a label of the cost `c` is better than the best so far: it comes before it, and may be the next.
    // Asked of the row itself: by `comes_first` of its cost, taken out first, the search at zones took up to half as long again.
    fn improves(&self, best: Option<LabelRow<C>>, c: C) -> bool
        ensures { result ≡ (leads C.CostKind.kind (option_map (λ r. r.cost) best) c && not (passed_over C.CostKind.kind self.now.last (drop self.now.start (shown self.now.rows.now)) c)) }
    {
        best.is_none_or(|row| c.before(row.cost)) && self.may_follow(c)
    }

    // The best so far, once the rows from `from` to `to` have gone on to `place` for `price`.
    pub(crate) fn along(
        &self,
        from: usize,
        to: usize,
        price: C,
        place: u8,
        mut best: Option<LabelRow<C>>,
    ) -> Option<LabelRow<C>>
        requires run { from ≤ to }
        requires within { to ≤ length self.now.rows.now }
        ensures { let ls = shown self.now.rows.now in shown_best ls result ≡ picked C.CostKind.kind (passed_over C.CostKind.kind self.now.last (drop self.now.start ls)) (shown_best ls best) (extended_by C.CostKind.kind price place (drop from (take to ls))) }
    {
        for (i, row) in self.rows[from..to].iter().enumerate() {
            let cost = row.cost.join(price);
            if self.improves(best, cost) {
                best = Some(LabelRow {
                    cost,
                    parent: (from + i) as u16,
                    place,
                });
            }
        }
        best
    }
}

ghost use Rattle.std.specs.Prelude.{◌≡◌, ◌+◌, ◌-◌, ◌≤◌, not, ◌&&◌, length, slice_index};
ghost use Rattle.std.specs.Iterator.{YieldsFirstBy, item_count};
ghost use Rattle.std.specs.List.{list_any};
ghost use Rattle.std.specs.Option.{option_map};
ghost use Rattle.rules.specs.Fronts.{front_of};
ghost use Rattle.labels.specs.Choices.{arrived, shown_offer, Chooses, offers_left};
ghost use Rattle.labels.specs.Landings.{cell_of, run_of, standing};
ghost use Rattle.labels.specs.Picks.{leads, undercuts, dominated, out_of_turn};
ghost use Rattle.labels.specs.Rows.{shown};

use crate::arrivals::Arrivals;
use crate::offer::Offer;
use crate::order::{comes_first, is_after};
use crate::row::LabelRow;
use costs::CostKind;

// The offers of a cart, in the order of their costs.
#[derive(Drop)]
pub struct Offers<'a, C> {
    arrivals: &'a Arrivals<'a, C>,
    last: Option<C>,
}

impl<'a, C: CostKind> Iterator for Offers<'a, C> {
    type Item = Offer<'a, C>;

    ghost next_gives = { YieldsFirstBy shown_offer (offers_left C.CostKind.kind) };

    ghost remaining = { item_count (offers_left C.CostKind.kind) };

    fn next(&mut self) -> Option<Offer<'a, C>> {
        let offer = self.arrivals.offer_after(self.last)?;
        self.last = Some(offer.cost);
        Some(offer)
    }
}

// Whether a cost dominates another: it is at most it, and comes before it.
fn undercuts<C: CostKind>(a: C, b: C) -> bool
    ensures { result ≡ undercuts C.CostKind.kind a b }
{
    a.at_most(b) && a.before(b)
}

impl<'a, C: CostKind> Arrivals<'a, C> {
    // All offers.
    pub(crate) fn offers(&'a self) -> Offers<'a, C>
        ensures { offers_left C.CostKind.kind result ≡ front_of C.CostKind.kind (arrived self.now) }
    {
        Offers {
            arrivals: self,
            last: None,
        }
    }

    // The labels at the goal at a tick, and the first one's row.
    // Here and in two more contracts the tick is none after the horizon: a type of such ticks would have to be made of each tick of a range, with the same proof there.
    fn run(&self, tick: u8) -> (usize, &'a [LabelRow<C>])
        requires { tick ≤ self.now.landing.horizon }
        ensures from { result.0 ≡ slice_index self.now.starts.now (cell_of self.now.landing tick) }
        ensures rows { result.1.now ≡ run_of self.now.starts.now self.now.landing tick self.now.rows.now }
        ensures within { result.0 + length result.1.now ≤ length self.now.rows.now }
    {
        let at = tick as usize * self.landing.places as usize + self.landing.goal as usize;
        let from = self.starts[at] as usize;
        (from, &self.rows[from..self.starts[at + 1] as usize])
    }

    // Whether the cost of some label that arrives at a tick dominates `c`.
    fn is_dominated_at(&self, tick: u8, c: C) -> bool
        requires { tick ≤ self.now.landing.horizon }
        ensures { result ≡ list_any (λ r. undercuts C.CostKind.kind r.cost c) (run_of self.now.starts.now self.now.landing tick self.now.rows.now) }
    {
        self.run(tick).1.iter().any(|row| undercuts(row.cost, c))
    }

    // Whether the cost of some label that arrives dominates `c`.
    fn is_dominated(&self, c: C) -> bool
        ensures { result ≡ dominated C.CostKind.kind (arrived self.now) c }
    {
        (self.landing.first..self.landing.horizon + 1).any(|tick| self.is_dominated_at(tick, c))
    }

    // Whether `c` may be the next offer's cost: it comes after the last one's, and nothing dominates it.
    fn is_due(&self, last: Option<C>, c: C) -> bool
        ensures { result ≡ not (out_of_turn C.CostKind.kind last (arrived self.now) c) }
    {
        is_after(last, c) && !self.is_dominated(c)
    }

    // Whether `c` is a better next offer's cost than the best so far.
    fn is_better(&self, last: Option<C>, best: &Option<Offer<'_, C>>, c: C) -> bool
        ensures { result ≡ (leads C.CostKind.kind (option_map (λ o. o.cost) best.now) c && not (out_of_turn C.CostKind.kind last (arrived self.now) c)) }
    {
        comes_first(best.as_ref().map(|offer| offer.cost), c) && self.is_due(last, c)
    }

    // The best so far, once the labels that arrive at a tick have come.
    // One loop of this and `RowsSoFar::along` would take the test and what makes the new best as closures, and be no shorter than the two.
    fn by_tick(
        &'a self,
        tick: u8,
        last: Option<C>,
        mut best: Option<Offer<'a, C>>,
    ) -> Option<Offer<'a, C>>
        requires { tick ≤ self.now.landing.horizon }
        ensures { Chooses C.CostKind.kind self.now last best.entry (standing (self.now.landing.horizon - tick) self.now.landing.goal (run_of self.now.starts.now self.now.landing tick (shown self.now.rows.now))) result }
    {
        let (from, run) = self.run(tick);
        for (at, row) in run.iter().enumerate() {
            let cost = row.cost;
            if self.is_better(last, &best, cost) {
                best = Some(Offer {
                    arrivals: self,
                    cost,
                    label: (from + at) as u16,
                    tick,
                });
            }
        }
        best
    }

    // The next offer after the one of the cost `last`, or the first.
    fn offer_after(&'a self, last: Option<C>) -> Option<Offer<'a, C>>
        ensures { Chooses C.CostKind.kind self.now last None (arrived self.now) result }
    {
        // A loop carries the best so far from tick to tick as plainly as a `fold`. One over `first..=horizon` would end in two ways, each with its proof.
        let mut best = None;
        for tick in self.landing.first..self.landing.horizon + 1 {
            best = self.by_tick(tick, last, best);
        }
        best
    }
}

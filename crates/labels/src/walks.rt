ghost use Rattle.std.specs.Prelude.{◌≡◌, reverse, length};
ghost use Rattle.std.specs.List.{AllByRecursion, slice_get};
ghost use Rattle.std.specs.Option.{option_map};
ghost use Rattle.rules.specs.Fronts.{front_of};
ghost use Rattle.labels.specs.Answers.{walked};
ghost use Rattle.labels.specs.Choices.{arrived, shown_offer};
ghost use Rattle.labels.specs.Rows.{shown, trace_at};

use crate::arrivals::Arrivals;
use crate::offer::Offer;
use crate::row::LabelRow;
use costs::CostKind;

// The places of a label from tick 0 on, by following parents back.
fn write_trace<C: CostKind>(rows: &[LabelRow<C>], label: usize, places: &mut [u8])
    requires { length (trace_at (shown rows.now) label) ≡ length places.old }
    ensures { places.new ≡ reverse (trace_at (shown rows.now) label) }
{
    let mut row = label;
    // An index, since of what a loop over `iter_mut().rev()` writes its proof learns nothing.
    for at in (0..places.len()).rev() {
        places[at] = rows[row].place;
        row = rows[row].parent as usize;
    }
}

impl<C: CostKind> Offer<'_, C> {
    // The places of the offer's walk, from tick 0 to the horizon.
    pub(crate) fn write_walk(&self, places: &mut [u8])
        requires { length places.old ≡ length (shown_offer self.now).item }
        ensures { places.new ≡ reverse (shown_offer self.now).item }
    {
        let landing = self.arrivals.landing;
        let moved = places.len() - (landing.horizon - self.tick) as usize;
        places.fill(landing.goal);
        write_trace(
            self.arrivals.rows,
            self.label as usize,
            &mut places[..moved],
        );
    }
}

impl<C: CostKind> Arrivals<'_, C> {
    // The cost of the offer with a number, whose walk is written into `places`, if there are so many.
    pub(crate) fn write_offer(&self, number: u16, places: &mut [u8]) -> Option<C>
        requires { AllByRecursion (λ o. length o.item ≡ length places.old) (front_of C.CostKind.kind (arrived self.now)) }
        ensures cost { result ≡ option_map (λ o. o.cost) (slice_get (front_of C.CostKind.kind (arrived self.now)) number) }
        ensures places { places.new ≡ walked (slice_get (front_of C.CostKind.kind (arrived self.now)) number) places.old }
    {
        let offer = self.offers().nth(number as usize)?;
        offer.write_walk(places);
        Some(offer.cost)
    }
}

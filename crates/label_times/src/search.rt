use crate::refused::Refused;
use anyhow::Context;
use carts::Constraint;
use costs::CostKind;
use floors::Floor;
use labels::{LabelRow, Query, count_labels, count_offers, take_offer};
use pages::push_line;
use std::alloc::{AllocError, Global};
use std::io::Write;
use std::time::Instant;

const ROWS: usize = 65535;

// A query, and the rows for its labels.
#[derive(Drop)]
pub struct Search<'a, F, C: CostKind> {
    query: Query<'a, F, C, Constraint>,
    rows: Vec<LabelRow<C>>,
}

impl<'a, F: Floor, C: CostKind> Search<'a, F, C> {
    pub(crate) fn new(
        heap: Global,
        query: Query<'a, F, C, Constraint>,
    ) -> Result<Search<'a, F, C>, AllocError> {
        let rows = vec![in heap; LabelRow::<C>::blank(); ROWS]?;
        Ok(Search { query, rows })
    }

    // How long one count of the offers takes, in nanoseconds.
    fn time_once(&mut self, rt: &HostRuntime) -> anyhow::Result<u64> {
        let start = Instant::now(rt)?;
        let answer = count_offers(&self.query, self.rows.as_mut_slice());
        let spent = start.elapsed(rt)?;
        answer.map_err(Refused::Query)?;
        u64::try_from(spent.as_nanos())
            .ok()
            .context("a time is above 64 bits of nanoseconds")
    }

    // The best time of several.
    pub(crate) fn best_time(&mut self, rt: &HostRuntime, repeats: u16) -> anyhow::Result<u64> {
        (0..repeats).try_fold(u64::MAX, |best, _| Ok(best.min(self.time_once(rt)?)))
    }

    // Prints the number of labels, and every offer with its walk.
    pub(crate) fn print_answer(&mut self, rt: &HostRuntime) -> anyhow::Result<()> {
        let rows = self.rows.as_mut_slice();
        let labels = count_labels(&self.query, rows).map_err(Refused::Query)?;
        println!(rt; "labels {labels}")?;
        let mut places = vec![in rt.alloc(); 0u8; usize::from(self.query.horizon) + 1]?;
        let offers = count_offers(&self.query, rows).map_err(Refused::Query)?;
        for number in 0..offers {
            let cost = take_offer(&self.query, number, rows, places.as_mut_slice())
                .map_err(Refused::Query)?
                .context("an offer that was counted is not there")?;
            print_cost(rt, cost)?;
            print_walk(rt, places.as_slice())?;
        }
        Ok(())
    }
}

fn print_cost<C: CostKind>(rt: &HostRuntime, cost: C) -> anyhow::Result<()> {
    let mut line = Vec::new(rt.alloc());
    push_line(&mut line, b"QC ", &cost, rt.alloc())?;
    rt.stdout().write_all(line.as_slice())?;
    Ok(())
}

// Prints as it goes: the `Display` of `offer_pages` for such a line is that crate's own, and a second one would be longer than the loop.
fn print_walk(rt: &HostRuntime, places: &[u8]) -> anyhow::Result<()> {
    print!(rt; "QP")?;
    for place in places {
        print!(rt; " {place}")?;
    }
    println!(rt)?;
    Ok(())
}

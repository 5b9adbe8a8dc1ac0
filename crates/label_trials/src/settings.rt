use crate::comparing::compare;
use crate::floors_made::{make_grid, make_lanes};
use crate::generated::Generated;
use crate::numbers::Numbers;
use crate::trial::Trial;
use costs::CostKind;
use floors::Floor;
use labels::LabelRow;
use std::alloc::{AllocError, Global};

// How many trials a setting has.
pub const TRIALS: u16 = 500;

const ROWS: usize = 4096;

// What its trials have in common: the numbers that they are made from, how many constraints they have at most, and rows for labels.
#[derive(Drop)]
struct Setting<C: CostKind> {
    heap: Global,
    numbers: Numbers,
    most: u8,
    rows: Vec<LabelRow<C>>,
}

impl<C: Generated> Setting<C> {
    fn new(heap: Global, most: u8) -> Result<Setting<C>, AllocError> {
        Ok(Setting {
            heap,
            numbers: Numbers::new(1),
            most,
            rows: vec![in heap; LabelRow::<C>::blank(); ROWS]?,
        })
    }

    // One trial on a floor: the number of offers, if the searches agree.
    fn run_on<F: Floor>(&mut self, floor: &F) -> Result<Option<u16>, AllocError> {
        let trial = Trial::generate(self.heap, &mut self.numbers, floor, self.most)?;
        compare(self.heap, &trial, self.rows.as_mut_slice())
    }

    // One trial, on a grid or on a floor of lanes by turns.
    fn run(&mut self, number: u16) -> anyhow::Result<Option<u16>> {
        let offers = if number % 2 == 0 {
            let floor = make_grid(self.heap, &mut self.numbers)?;
            self.run_on(&floor)?
        } else {
            let floor = make_lanes(&mut self.numbers)?;
            self.run_on(&floor)?
        };
        Ok(offers)
    }
}

// Runs all trials of a kind of cost with at most so many constraints, prints how many agree and how many offers those have, and says how many agree.
pub(crate) fn run_setting<C: Generated>(
    rt: &HostRuntime,
    kind: &str,
    most: u8,
) -> anyhow::Result<u32> {
    let mut setting = Setting::<C>::new(rt.alloc(), most)?;
    let mut agreed = 0u32;
    let mut offers = 0u32;
    for number in 0..TRIALS {
        if let Some(count) = setting.run(number)? {
            agreed = agreed.saturating_add(1);
            offers = offers.saturating_add(u32::from(count));
        }
    }
    let with = if most == 0 { "without" } else { "with" };
    println!(rt; "{kind} {with} constraints: {agreed} of {TRIALS} agree, with {offers} offers")?;
    Ok(agreed)
}

use crate::numbers::Numbers;
use anyhow::Context;
use floors::{GridFloor, LaneFloor, LaneRow};
use std::alloc::Global;

// The number of tariff lines of every trial.
pub const LINES: u8 = 3;

const BLOCKED: u8 = 255;

fn make_cell(numbers: &mut Numbers) -> u8 {
    if numbers.below(8) == 0 {
        BLOCKED
    } else {
        numbers.below(LINES)
    }
}

// A grid of up to 3 by 2 cells, some of them blocked.
pub(crate) fn make_grid(heap: Global, numbers: &mut Numbers) -> anyhow::Result<GridFloor> {
    let width = usize::from(numbers.below(3)) + 1;
    let height = usize::from(numbers.below(2)) + 1;
    let cells: Vec<u8> = (0..width * height)
        .map(|_| make_cell(numbers))
        .collect(heap)?;
    GridFloor::new(width, height, cells.as_slice())
        .ok()
        .context("a grid is refused")
}

// A floor of 2 to 5 places with up to 3 lanes from each, which may be waits and may lead to one place twice.
pub(crate) fn make_lanes(numbers: &mut Numbers) -> anyhow::Result<LaneFloor> {
    let places = numbers.below(4) + 2;
    let mut floor = LaneFloor::empty(u16::from(places))
        .ok()
        .context("a floor is refused")?;
    for from in 0..places {
        for _ in 0..numbers.below(4) {
            let lane = LaneRow {
                from: u16::from(from),
                to: u16::from(numbers.below(places)),
                line: u16::from(numbers.below(LINES)),
            };
            floor.add_lane(lane).ok().context("a lane is refused")?;
        }
    }
    Ok(floor)
}

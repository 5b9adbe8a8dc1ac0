use crate::refused::Refused;
use crate::words::Words;
use floors::{GridFloor, LaneFloor, LaneRow};
use std::alloc::Global;

// A grid: its width and height, and then its cells.
pub(crate) fn read_grid(heap: Global, words: &mut Words<'_>) -> anyhow::Result<GridFloor> {
    let width = usize::from(words.number::<u8>()?);
    let height = usize::from(words.number::<u8>()?);
    let cells: Vec<u8> = (0..width * height)
        .map(|_| words.number::<u8>())
        .try_collect(heap)?;
    let floor = GridFloor::new(width, height, cells.as_slice()).map_err(Refused::Grid)?;
    Ok(floor)
}

fn read_lane(words: &mut Words<'_>) -> anyhow::Result<LaneRow> {
    Ok(LaneRow {
        from: words.number()?,
        to: words.number()?,
        line: words.number()?,
    })
}

// A floor of lanes: the number of its places, the number of its lanes, and then the lanes.
pub(crate) fn read_lanes(words: &mut Words<'_>) -> anyhow::Result<LaneFloor> {
    let places = words.number::<u16>()?;
    let count = words.number::<u16>()?;
    let mut floor = LaneFloor::empty(places).map_err(Refused::Lanes)?;
    // each lane is added as it is read, so that the first fault in the case is the one that is told
    for _ in 0..count {
        let lane = read_lane(words)?;
        floor.add_lane(lane).map_err(Refused::Lanes)?;
    }
    Ok(floor)
}

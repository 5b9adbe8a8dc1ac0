use carts::Draft;
use floors::LaneFloor;

// A site that was read: its draft, which counts its carts, its floor, and how many rows its lanes and its tariff take.
#[derive(Drop)]
pub struct Site {
    pub draft: Draft,
    pub floor: LaneFloor,
    pub lanes: usize,
    pub tariff: usize,
}

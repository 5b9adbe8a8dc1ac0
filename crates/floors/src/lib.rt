#![tactic(auto)]

mod floor;
mod grid;
mod grid_floor;
pub mod lane_floor;
pub mod lane_row;
mod move_table;
pub mod refusal;
mod side;
pub mod step;
#[cfg(test)]
mod tests;

pub use floor::Floor;
pub use grid_floor::GridFloor;
pub use lane_floor::LaneFloor;
pub use lane_row::LaneRow;
pub use refusal::FloorRefusal;
pub use step::Step;

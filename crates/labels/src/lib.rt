#![tactic(auto)]

// Numbers are widened by `as`: of the answer of `usize::from`, as the place in a slice, each proof would first have to say what it is.
mod allowed;
mod arrivals;
mod calls;
mod cell;
mod cells;
mod constraints;
mod landing;
mod landings;
mod layer;
mod limits;
mod list;
mod offer;
mod offers;
mod open_cell;
mod order;
mod query;
mod refusal;
mod row;
mod rows;
mod search;
mod tables;
mod walks;

pub use calls::{count_labels, count_offers, take_offer};
pub use query::Query;
pub use refusal::LabelRefusal;
pub use row::LabelRow;

#![tactic(auto)]

mod added;
mod adding;
mod covering;
mod inserting;
mod list;
mod removing;
mod row;
#[cfg(test)]
mod tests;
mod whole;

// The functions take the rows and how many are in use apart: they are public, and their signatures are settled. `FrontList` is the
// struct of the two.
pub use added::Added;
pub use adding::add;
pub use covering::covers;
pub use inserting::insert;
pub use list::FrontList;
pub use removing::{count_unbeaten, remove_beaten};
pub use row::Row;
pub use whole::front_of;

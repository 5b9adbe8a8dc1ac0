#![tactic(auto)]

mod bodies;
mod heads;
mod lines;
mod promises;
mod rank;
mod reader;
mod reading;
pub mod records;
pub mod refusal;
pub mod rooms;
pub mod site;
#[cfg(test)]
mod tests;
mod writing;

pub use promises::{format_stands, reading_stands};
pub use reader::read_site;
pub use records::Record;
pub use refusal::{SiteFault, SiteRefusal};
pub use site::Site;

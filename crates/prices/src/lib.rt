#![tactic(auto)]

mod cost_lines;
mod making;
mod page;
mod priced;
mod printing;
mod reading;
mod refusal;
mod zone_lines;

pub use pages::MOST_BYTES;
pub use priced::Priced;
pub use printing::front_page;

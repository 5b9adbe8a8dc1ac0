#![tactic(auto)]

mod carts_asked;
mod checks;
mod fault;
mod page;
mod places;
mod printing;
mod view;
mod writer;

pub use pages::MOST_BYTES;
pub use printing::offer_page;

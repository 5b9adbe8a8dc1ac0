#![tactic(auto)]

pub mod cart;
mod constrains;
mod constraint;
pub mod draft;
pub mod draft_refusal;

pub use cart::Cart;
pub use constrains::Constrains;
pub use constraint::Constraint;
pub use draft::Draft;
pub use draft_refusal::DraftRefusal;

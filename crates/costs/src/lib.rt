#![tactic(auto)]

mod digits;
mod kind;
mod number;
pub mod pair;
mod pair_kind;
mod promises;
#[cfg(test)]
mod tests;
mod text;
pub mod total;
mod total_kind;
pub mod worst;
mod worst_kind;
pub mod zones;
mod zones_kind;

pub use kind::CostKind;
pub use pair::Pair;
pub use promises::{texts_apart, zones_are_sets};
pub use text::Text;
pub use total::Total;
pub use worst::Worst;
pub use zones::Zones;

#![tactic(auto)]

mod chart;
mod drawing;
mod inbound;
mod index;
mod marks;
mod ticks;

pub use chart::Chart;
pub use drawing::draw;
pub use inbound::Inbound;
pub use index::Index;
pub use ticks::Ticks;

#![tactic(auto)]

mod input;
mod lines;
pub mod stop;
#[cfg(test)]
mod tests;

pub use input::{MOST_BYTES, read_input};
pub use lines::push_line;
pub use stop::{Stop, or_line};

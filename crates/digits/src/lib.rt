#![tactic(auto)]

pub mod bytes;
pub mod numbers;

pub use bytes::split_once;
pub use numbers::{ReadFault, read_number};

use crate::inbound::Inbound;

mod asking;
mod counting;
mod filling;
mod walk;

// The moves of a floor by the place reached: those that reach place `p` stand from `begins[p]` to `begins[p + 1]`, in the order of the
// places left, and then of the moves' numbers. `moves` is in use up to `begins[128]`: an array, since no crate here takes a heap.
#[derive(Drop)]
pub struct Index {
    pub begins: [u16; 129],
    pub moves: [Inbound; 1024],
}

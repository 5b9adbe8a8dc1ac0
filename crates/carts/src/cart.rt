// A cart: the place where it starts, and the place that it is to reach.
#[derive(Clone, Copy, PartialEq, Eq, Debug)]
pub struct Cart {
    pub start: u8,
    pub goal: u8,
}

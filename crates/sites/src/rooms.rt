// How many rows the lent tables have.
#[derive(Clone, Copy)]
pub struct Rooms {
    pub lanes: usize,
    pub tariff: usize,
    pub carts: usize,
}

use carts::Cart;

// What is asked of one cart: its floor and tariff, all carts, the horizon, the constraints, and which cart it is.
// The clauses read it through `asked`: what is Copy and has a lifetime may have no model.
#[derive(Clone, Copy)]
pub struct Query<'a, F, C, B> {
    pub floor: &'a F,
    pub tariff: &'a [C],
    pub carts: &'a [Cart],
    pub horizon: u8,
    pub constraints: &'a [B],
    pub cart: u8,
}

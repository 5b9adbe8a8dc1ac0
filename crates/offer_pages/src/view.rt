use carts::Cart;

// A site as it is asked for offers: its floor, tariff, carts and horizon. What the checks find out of it is kept by `PageWriter`.
#[derive(Clone, Copy)]
pub struct SiteView<'a, F, C> {
    pub floor: &'a F,
    pub tariff: &'a [C],
    pub carts: &'a [Cart],
    pub horizon: u8,
}

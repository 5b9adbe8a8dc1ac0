// One tick of the search.
#[derive(Clone, Copy)]
pub struct Layer {
    pub tick: u8,
    // whether any constraint is on the cart at the tick
    pub busy: bool,
    // where the beginnings of the tick's cells stand
    pub base: usize,
}

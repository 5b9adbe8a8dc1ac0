// The cell being filled: the labels at a place at the tick after `tick`.
#[derive(Clone, Copy)]
pub struct Cell {
    pub tick: u8,
    pub place: u8,
    // whether some constraint is on the cart's moves to the place
    pub barred: bool,
    // where the beginnings of the cells of `tick` stand
    pub base: usize,
}

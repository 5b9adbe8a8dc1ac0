// Where a move from a cell of a grid leads: `Here` is a wait.
#[derive(Clone, Copy)]
pub enum Side {
    Above,
    Left,
    Right,
    Below,
    Here,
}

impl Side {
    // The order of a cell's moves.
    pub(crate) const ALL: [Side; 5] = [
        Side::Above,
        Side::Left,
        Side::Right,
        Side::Below,
        Side::Here,
    ];
}

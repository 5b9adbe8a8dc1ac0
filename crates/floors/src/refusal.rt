// Why a floor is not made.
#[derive(Clone, Copy, PartialEq, Eq, Debug)]
pub enum FloorRefusal {
    // there are not 1 to 128 places, or a grid's table has not a byte for each
    BadSize,
    // the row with this number names an absent place, or is a ninth move of its place
    BadRow(u16),
}

mod blank;

use crate::index::Index;
use crate::ticks::Ticks;

// What a cart needs to know of its floor and constraints: the moves by the place reached, the cells (tick × places + place) at which
// the cart may not be, and for each of those moves the ticks at which it may not leave by it.
// The ticks stand beside the index, and not in it: an index says what is so of a floor for every cart.
#[derive(Drop)]
pub struct Chart {
    pub index: Index,
    pub shut: [bool; 8320],
    pub closed: [Ticks; 1024],
}

ghost use Rattle.std.specs.Prelude.{◌≡◌, ℕ, ◌+◌, ◌<◌, ◌≤◌, length, slice_index};

mod marking;

use crate::index::Index;
use crate::ticks::Ticks;

// The parts of a chart, while marks are made in it for a floor of so many places; its index has the floor's moves, one place's behind another's.
// A chart itself promises nothing of its index, since whoever has one may write in it.
#[derive(Drop)]
pub(crate) struct Marks<'a> {
    pub(crate) index: &'a Index,
    pub(crate) shut: &'a mut [bool],
    pub(crate) closed: &'a mut [Ticks],
    pub(crate) places: u8,
    ghost all_cells: { length shut.now ≡ 8320 },
    ghost all_moves: { length closed.now ≡ 1024 },
    ghost few: { places ≤ 128 },
    ghost rising: { (p : ℕ) → p < places → slice_index index.now.begins p ≤ slice_index index.now.begins (p + 1) },
    ghost within: { (p : ℕ) → p < places → slice_index index.now.begins (p + 1) ≤ length index.now.moves },
}

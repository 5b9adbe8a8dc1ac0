ghost use Rattle.std.specs.Prelude.{◌≡◌, slice_index};
ghost use Rattle.charts.specs.Indexes.{held_for};

use crate::inbound::Inbound;
use crate::index::Index;

impl Index {
    // Where the moves that reach a place begin; 0 where there is no such place.
    pub(crate) fn begin(&self, place: usize) -> u16
        ensures { result ≡ slice_index self.now.begins place }
    {
        self.begins.get(place).copied().unwrap_or(0)
    }

    // The moves that reach a place; none where there is no such place.
    pub fn moves_to(&self, place: u8) -> &[Inbound]
        ensures { result.now ≡ held_for self.now place }
    {
        let place = usize::from(place);
        let begin = usize::from(self.begin(place));
        let end = usize::from(self.begin(place + 1));
        self.moves.get(begin..end).unwrap_or(&[])
    }
}

ghost use Rattle.std.specs.Prelude.{[], slice_set};
ghost use Rattle.floors.specs.Shut.{shut_bounds};

use crate::floor::Floor;
use crate::step::Step;

// Any floor with the moves from one place left out: a layer above a floor needs nothing but the trait.
#[derive(Drop)]
pub struct Shut<F> {
    pub below: F,
    pub place: u8,
}

impl<F: Floor> Floor for Shut<F> {
    ghost moves = { λ s. slice_set (F.Floor.moves s.below) s.place [] };

    ghost bounds = { λ s. shut_bounds _ s.place (F.Floor.bounds s.below) };

    fn places(&self) -> u8 {
        self.below.places()
    }

    fn move_count(&self, place: u8) -> u8 {
        if place == self.place {
            return 0;
        }
        self.below.move_count(place)
    }

    fn step(&self, place: u8, number: u8) -> Option<Step> {
        if place == self.place {
            return None;
        }
        self.below.step(place, number)
    }
}

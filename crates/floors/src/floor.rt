ghost use Rattle.std.specs.Prelude.{◌≡◌, List, [], length, slice_index_or};
ghost use Rattle.std.proofs.Math.ListN.{get_elem?};
ghost use Rattle.rules.specs.Instances.{Move};
ghost use Rattle.floors.specs.Floors.{FloorBounds, step_option};

use crate::step::Step;

// A floor means one list of moves for each of its places. Asking changes nothing.
pub trait Floor {
    ghost moves: { Self → List (List Move) };

    fn places(&self) -> u8
        ensures { result ≡ length (moves self.now) };

    // How many moves a place has; an absent place has none.
    fn move_count(&self, place: u8) -> u8
        ensures { result ≡ length (slice_index_or (moves self.now) place []) };

    // One move of a place, or none where it is absent.
    fn step(&self, place: u8, number: u8) -> Option<Step>
        ensures { step_option result ≡ get_elem? (slice_index_or (moves self.now) place []) number };

    // 1 to 128 places, at most 8 moves from a place, and each move reaches a place of the floor
    ghost bounds: { (f : Self) → FloorBounds (moves f) };
}

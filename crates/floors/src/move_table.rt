ghost use Rattle.std.specs.Prelude.{◌≡◌, ◌<◌, ◌≤◌, [], ◌∷◌, ◌++◌, map, length, replicate, slice_index_or};
ghost use Rattle.std.proofs.Math.ListN.{get_elem?};
ghost use Rattle.floors.specs.Floors.{move_of, step_option};
ghost use Rattle.floors.specs.MoveTables.{extended};

use crate::step::Step;
use arrayvec::ArrayVec;
use std::marker::Model;

// The moves of every place of a floor, in memory of a fixed size.
#[derive(Drop)]
pub struct MoveTable {
    lists: ArrayVec<ArrayVec<Step, 8>, 128>,
}

impl Model for MoveTable {
    ghost use Rattle.std.specs.Prelude.{List, map};
    ghost use Rattle.rules.specs.Instances.{Move};
    ghost use Rattle.floors.specs.Floors.{move_of};

    ghost Value = { List (List Move) };

    ghost view = { λ t. map (λ l. map move_of l.items) t.lists.items };
}

impl MoveTable {
    // A table of this many places, none with a move.
    pub(crate) fn empty(places: u8) -> MoveTable
        requires { places ≤ 128 }
        ensures { result ≡ replicate places [] }
    {
        let mut lists = ArrayVec::new();
        for _ in 0..places {
            lists.push(ArrayVec::new());
        }
        MoveTable { lists }
    }

    // One more place, with its moves.
    pub(crate) fn add_place(&mut self, moves: ArrayVec<Step, 8>)
        requires { length self.old < 128 }
        ensures { self.new ≡ self.old ++ map move_of moves.items ∷ [] }
    {
        self.lists.push(moves);
    }

    // One more move of a place, after those that it has.
    pub(crate) fn push(&mut self, place: u8, step: Step)
        requires from { place < length self.old }
        requires room { length (slice_index_or self.old place []) < 8 }
        ensures { self.new ≡ extended self.old place (move_of step ∷ []) }
    {
        self.lists[usize::from(place)].push(step);
    }

    pub(crate) fn places(&self) -> u8
        ensures { result ≡ length self.now }
    {
        self.lists.len() as u8
    }

    // How many moves a place has; an absent place has none.
    pub(crate) fn move_count(&self, place: u8) -> u8
        ensures { result ≡ length (slice_index_or self.now place []) }
    {
        self.lists
            .get(usize::from(place))
            .map_or(0, |list| list.len() as u8)
    }

    // One move of a place, or none where it is absent.
    pub(crate) fn step(&self, place: u8, number: u8) -> Option<Step>
        ensures { step_option result ≡ get_elem? (slice_index_or self.now place []) number }
    {
        self.lists
            .get(usize::from(place))?
            .get(usize::from(number))
            .copied()
    }
}

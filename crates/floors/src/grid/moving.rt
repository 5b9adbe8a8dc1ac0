ghost use Rattle.std.specs.Prelude.{◌≡◌, ◌*◌, ◌/◌, ◌%◌, ◌<◌, map, IfSome, IfOk};
ghost use Rattle.std.specs.Option.{option_map, option_to_list};
ghost use Rattle.floors.specs.Floors.{move_of};
ghost use Rattle.floors.specs.Grids.{cell_moves, grid_refusal, neighbour, side_moves};
ghost use Rattle.floors.specs.Refusals.{refusal_of};

use crate::grid::Grid;
use crate::refusal::FloorRefusal;
use crate::side::Side;
use crate::step::Step;
use arrayvec::ArrayVec;

const BLOCKED: u8 = 255;

// A cell's number is below width × height in three contracts: a type of it would have to lend the grid too, and each clause name the
// grid through it.
impl<'a> Grid<'a> {
    // A grid with 1 to 128 cells, and a byte for each.
    pub(crate) fn of(width: usize, height: usize, cells: &'a [u8]) -> Result<Grid<'a>, FloorRefusal>
        ensures refusal { refusal_of result ≡ grid_refusal width height cells.now }
        ensures same { IfOk result (λ g. (g.width ≡ width) × (g.height ≡ height) × (g.cells.now ≡ cells.now)) }
    {
        let places = width.checked_mul(height).ok_or(FloorRefusal::BadSize)?;
        if !(1..=128).contains(&places) || cells.len() != places {
            return Err(FloorRefusal::BadSize);
        }
        Ok(Grid {
            width,
            height,
            cells,
        })
    }

    // The moves of a cell: none from a blocked one.
    pub(crate) fn moves_from(&self, place: usize) -> ArrayVec<Step, 8>
        requires { place < self.now.width * self.now.height }
        ensures { map move_of result.items ≡ cell_moves self.now.width self.now.height self.now.cells.now place }
    {
        let mut moves = ArrayVec::new();
        if self.cells[place] == BLOCKED {
            return moves;
        }
        for side in Side::ALL {
            if let Some(step) = self.step(place, side) {
                moves.push(step);
            }
        }
        moves
    }

    // The move from a cell to one side of it, if there is an open cell.
    fn step(&self, place: usize, side: Side) -> Option<Step>
        requires { place < self.now.width * self.now.height }
        ensures { option_to_list (option_map move_of result) ≡ side_moves self.now.width self.now.height self.now.cells.now place side }
    {
        let to = self.beside(place, side)?;
        let line = self.cells[to];
        if line == BLOCKED {
            return None;
        }
        Some(Step {
            to: to as u8,
            line: u16::from(line),
        })
    }

    // The cell on one side of a cell, or none over the edge.
    fn beside(&self, place: usize, side: Side) -> Option<usize>
        requires { place < self.now.width * self.now.height }
        ensures cell { result ≡ neighbour self.now.width self.now.height (place % self.now.width) (place / self.now.width) side }
        ensures inside { IfSome result (λ p. p < self.now.width * self.now.height) }
    {
        let x = place % self.width;
        let y = place / self.width;
        match side {
            Side::Above if y > 0 => Some(place - self.width),
            Side::Left if x > 0 => Some(place - 1),
            Side::Right if x + 1 < self.width => Some(place + 1),
            Side::Below if y + 1 < self.height => Some(place + self.width),
            Side::Here => Some(place),
            _ => None,
        }
    }
}

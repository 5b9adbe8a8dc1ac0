ghost use Rattle.std.specs.Prelude.{◌≡◌, IfOk};
ghost use Rattle.std.proofs.Props.{props};
ghost use Rattle.floors.specs.Floors.{FloorBounds};
ghost use Rattle.floors.specs.Grids.{grid_moves, grid_refusal};
ghost use Rattle.floors.specs.Refusals.{refusal_of};

use crate::floor::Floor;
use crate::grid::Grid;
use crate::move_table::MoveTable;
use crate::refusal::FloorRefusal;
use crate::step::Step;

// A floor whose places are the cells of a grid, row after row.
#[derive(Drop)]
pub struct GridFloor {
    table: MoveTable,
    ghost bounds: { FloorBounds table } by { Prim.hlevel props },
}

impl GridFloor {
    pub fn new(width: usize, height: usize, cells: &[u8]) -> Result<GridFloor, FloorRefusal>
        ensures refusal { refusal_of result ≡ grid_refusal width height cells.now }
        ensures moves { IfOk result (λ f. f.table ≡ grid_moves width height cells.now) }
    {
        let grid = Grid::of(width, height, cells)?;
        let mut table = MoveTable::empty(0);
        for place in 0..cells.len() {
            table.add_place(grid.moves_from(place));
        }
        Ok(GridFloor { table })
    }
}

// Each floor passes the questions on to its table: a trait of what has a table, with one `impl` of `Floor` for all that do, would be longer.
impl Floor for GridFloor {
    ghost moves = { λ f. f.table };

    ghost bounds = { λ f. f.bounds };

    fn places(&self) -> u8 {
        self.table.places()
    }

    fn move_count(&self, place: u8) -> u8 {
        self.table.move_count(place)
    }

    fn step(&self, place: u8, number: u8) -> Option<Step> {
        self.table.step(place, number)
    }
}

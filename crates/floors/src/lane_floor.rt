ghost use Rattle.std.specs.Prelude.{◌≡◌, [], ◌∷◌, replicate, IfOk, MatchResult};
ghost use Rattle.floors.specs.Lanes.{lane_count, lane_fits, lane_moves, lane_refusal, row_move, row_refusal};
ghost use Rattle.floors.specs.MoveTables.{extended};
ghost use Rattle.floors.specs.Refusals.{refusal_of, size_refusal};
ghost use Rattle.std.proofs.Props.{props};
ghost use Rattle.floors.specs.Floors.{FloorBounds};

use crate::floor::Floor;
use crate::lane_row::LaneRow;
use crate::move_table::MoveTable;
use crate::refusal::FloorRefusal;
use crate::step::Step;

// A floor whose moves are the rows of a lane table, in table order.
#[derive(Drop)]
pub struct LaneFloor {
    table: MoveTable,
    lanes: u16,
    ghost counted: { lanes ≡ lane_count table },
    ghost bounds: { FloorBounds table } by { Prim.hlevel props },
}

impl LaneFloor {
    // The floor of a whole table.
    pub fn new(places: u16, rows: &[LaneRow]) -> Result<LaneFloor, FloorRefusal>
        ensures refusal { refusal_of result ≡ lane_refusal places rows.now }
        ensures moves { IfOk result (λ f. f.table ≡ lane_moves places rows.now) }
    {
        let mut floor = LaneFloor::empty(places)?;
        for row in rows {
            floor.add_lane(*row)?;
        }
        Ok(floor)
    }

    // A floor with no lane yet.
    pub fn empty(places: u16) -> Result<LaneFloor, FloorRefusal>
        ensures refusal { refusal_of result ≡ size_refusal places }
        ensures moves { IfOk result (λ f. f.table ≡ replicate places []) }
    {
        if !(1..=128).contains(&places) {
            return Err(FloorRefusal::BadSize);
        }
        Ok(LaneFloor {
            table: MoveTable::empty(places as u8),
            lanes: 0,
        })
    }

    // One lane more, after those of its place. A refused row leaves the floor as it was; its number is that of the lanes before it.
    pub fn add_lane(&mut self, row: LaneRow) -> Result<(), FloorRefusal>
        ensures refusal { refusal_of result ≡ row_refusal self.old.table row }
        ensures moves { MatchResult result (λ _. self.new.table ≡ extended self.old.table row.from (row_move row ∷ [])) (λ _. self.new ≡ self.old) }
    {
        if !self.takes(row) {
            return Err(FloorRefusal::BadRow(self.lanes));
        }
        self.table.push(
            row.from as u8,
            Step {
                to: row.to as u8,
                line: row.line,
            },
        );
        self.lanes += 1;
        Ok(())
    }

    fn takes(&self, row: LaneRow) -> bool
        ensures { result ≡ lane_fits self.now.table row }
    {
        let places = u16::from(self.table.places());
        row.from < places && row.to < places && self.table.move_count(row.from as u8) < 8
    }
}

impl Floor for LaneFloor {
    ghost moves = { λ f. f.table };

    ghost bounds = { λ f. f.bounds };

    fn places(&self) -> u8 {
        self.table.places()
    }

    fn move_count(&self, place: u8) -> u8 {
        self.table.move_count(place)
    }

    fn step(&self, place: u8, number: u8) -> Option<Step> {
        self.table.step(place, number)
    }
}

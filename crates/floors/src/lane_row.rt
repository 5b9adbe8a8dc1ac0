// One row of a lane table. Its numbers are wider than a floor's, so that a row that names an absent place can be told.
#[derive(Clone, Copy)]
pub struct LaneRow {
    pub from: u16,
    pub to: u16,
    pub line: u16,
}

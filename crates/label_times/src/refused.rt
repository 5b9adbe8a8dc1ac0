use floors::FloorRefusal;
use labels::LabelRefusal;
use std::error::Error;
use std::fmt;

// Why a case is refused, in words: by its grid, by its floor of lanes, or by the label search.
#[derive(Clone, Copy, Debug)]
pub enum Refused {
    Grid(FloorRefusal),
    Lanes(FloorRefusal),
    Query(LabelRefusal),
}

impl fmt::Display for Refused {
    fn fmt<W: fmt::Write>(&self, f: &mut fmt::Formatter<W>) -> fmt::Result {
        f.write_str(match self {
            Refused::Grid(_) => "the grid has not 1 to 128 cells",
            Refused::Lanes(FloorRefusal::BadSize) => "the floor has not 1 to 128 places",
            Refused::Lanes(FloorRefusal::BadRow(_)) => {
                "a lane names an absent place, or is the ninth of its place"
            }
            Refused::Query(LabelRefusal::HorizonTooLong) => "the horizon is above 64 ticks",
            Refused::Query(LabelRefusal::StartOffFloor) => {
                "the cart's start is no place of the floor"
            }
            Refused::Query(LabelRefusal::GoalOffFloor) => {
                "the cart's goal is no place of the floor"
            }
            Refused::Query(LabelRefusal::NoRowLeft) => "the labels exceed the rows",
            Refused::Query(_) => "the query does not fit its rows",
        })
    }
}

impl Error for Refused {}

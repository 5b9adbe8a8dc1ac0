// Why a query has no answer.
#[derive(Clone, Copy, PartialEq, Eq, Debug)]
pub enum LabelRefusal {
    // the places for the walk are not one for each tick from 0 to the horizon
    WrongLength,
    // the horizon is above 64 ticks
    HorizonTooLong,
    // there are above 65,535 rows
    TooManyRows,
    NoSuchCart,
    // the cart's start, or its goal, is no place of the floor
    StartOffFloor,
    GoalOffFloor,
    // the labels exceed the rows
    NoRowLeft,
}

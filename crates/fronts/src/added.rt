// What became of a row that was to be added to a front.
// Of these three only the last is a failure, so a `Result` would hold an `Option`, and say no more than the names here.
#[derive(Clone, Copy, PartialEq, Eq, Debug)]
pub enum Added {
    // A row in use costs at most as much.
    Covered,
    // It is listed, and so many rows are in use.
    Listed(usize),
    // The slice has no row left for it.
    NoRow,
}

// Two costs side by side.
#[derive(Clone, Copy, PartialEq, Eq, PartialOrd, Ord, Debug)]
pub struct Pair<A, B> {
    pub first: A,
    pub second: B,
}

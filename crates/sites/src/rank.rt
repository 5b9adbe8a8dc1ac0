// The order of the records from the second on.
#[derive(Clone, Copy, PartialEq, Eq, PartialOrd, Ord)]
pub enum Rank {
    Places,
    Lane,
    Tariff,
    Cart,
}

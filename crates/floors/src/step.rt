// A move from a place: the place it reaches, and the tariff line that it pays.
#[derive(Clone, Copy, PartialEq, Eq, Debug, Default)]
pub struct Step {
    pub to: u8,
    pub line: u16,
}

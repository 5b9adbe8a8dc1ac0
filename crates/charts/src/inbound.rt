// A move, as the place that it reaches sees it: the place that it leaves, and the tariff line that it pays.
#[derive(Clone, Copy)]
pub struct Inbound {
    pub from: u8,
    pub line: u16,
}

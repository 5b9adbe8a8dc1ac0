// The longest horizon, in ticks.
pub const MOST_TICKS: u8 = 64;
// The most rows, as many as a label's number tells apart.
pub const MOST_ROWS: usize = 65_535;
// Where the cells begin, one for each of 128 places at each of 65 ticks, and where the last one ends.
pub const STARTS: usize = 65 * 128 + 1;

ghost use Rattle.std.specs.Prelude.{◌≡◌};
ghost use Rattle.sites.specs.Sites.{back};

use floors::LaneRow;

// One record of a site, with its numbers as they are written.
#[derive(Clone, Copy)]
pub enum Record {
    Horizon(u16),
    Places(u16),
    Lane(LaneRow),
    BothLanes(LaneRow),
    Tariff { total: u16, worst: u16 },
    Cart { start: u16, goal: u16 },
}

// The lane in the other direction.
pub(crate) fn back(row: LaneRow) -> LaneRow
    ensures { result ≡ back row }
{
    LaneRow {
        from: row.to,
        to: row.from,
        line: row.line,
    }
}

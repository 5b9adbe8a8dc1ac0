ghost use Rattle.std.specs.Prelude.{◌≡◌, ◌+◌, ◌<◌, ◌≤◌, List, length, slice_set};
ghost use Rattle.sites.specs.Records.{Fitting};
ghost use Rattle.sites.specs.Sites.{lanes_in, tariff_in};
ghost use Rattle.sites.specs.Writing.{put, Writable, RowsWritten};

use crate::lines::Records;
use crate::records::{Record, back};
use costs::{Pair, Total, Worst};
use floors::LaneRow;

// A lent table, of which so many first rows are written; there is no heap here for a `Vec`.
#[derive(Drop)]
pub struct Filling<'a, T> {
    table: &'a mut [T],
    count: usize,
}

impl<T: Copy> Filling<'_, T> {
    // Writes the next row.
    fn push(&mut self, row: T)
        requires { self.old.count < length self.old.table.now }
        ensures same_reference { self.new.table.ghost_name ≡ self.old.table.ghost_name }
        ensures row { self.new.table.now ≡ slice_set self.old.table.now self.old.count row }
        ensures count { self.new.count ≡ self.old.count + 1 }
    {
        self.table[self.count] = row;
        self.count += 1;
    }
}

// Writes the rows of one record after those that are written.
fn write_record(
    record: Record,
    lanes: &mut Filling<LaneRow>,
    tariff: &mut Filling<Pair<Total, Worst>>,
)
    requires fitting { Fitting «record» }
    requires lanes { lanes.old.count + length (lanes_in «record») ≤ length lanes.old.table.now }
    requires tariff { tariff.old.count + length (tariff_in «record») ≤ length tariff.old.table.now }
    ensures same_lanes { lanes.new.table.ghost_name ≡ lanes.old.table.ghost_name }
    ensures same_tariff { tariff.new.table.ghost_name ≡ tariff.old.table.ghost_name }
    ensures lanes { (lanes.new.table.now ≡ put lanes.old.table.now lanes.old.count (lanes_in «record»)) × (lanes.new.count ≡ lanes.old.count + length (lanes_in «record»)) }
    ensures tariff { (tariff.new.table.now ≡ put tariff.old.table.now tariff.old.count (tariff_in «record»)) × (tariff.new.count ≡ tariff.old.count + length (tariff_in «record»)) }
{
    match record {
        Record::Lane(row) => lanes.push(row),
        Record::BothLanes(row) => {
            lanes.push(row);
            lanes.push(back(row));
        }
        // by `as`: of a row made by `u32::from` the proof does not close
        Record::Tariff { total, worst } => tariff.push(Pair {
            first: Total {
                value: total as u32,
            },
            second: Worst { value: worst },
        }),
        Record::Horizon(_) | Record::Places(_) | Record::Cart { .. } => {}
    }
}

// Writes the lanes and the tariff lines of a site that was read.
pub(crate) fn write_rows(bytes: &[u8], lanes: &mut [LaneRow], tariff: &mut [Pair<Total, Worst>])
    requires { Writable bytes.now (length lanes.old) (length tariff.old) }
    ensures lanes { (rs : List Record) → RowsWritten lanes_in rs bytes.now lanes.old lanes.new }
    ensures tariff { (rs : List Record) → RowsWritten tariff_in rs bytes.now tariff.old tariff.new }
{
    let mut lanes = Filling {
        table: lanes,
        count: 0,
    };
    let mut tariff = Filling {
        table: tariff,
        count: 0,
    };
    for record in (Records { rest: bytes }) {
        write_record(record, &mut lanes, &mut tariff);
    }
}

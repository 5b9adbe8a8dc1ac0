ghost use Rattle.std.specs.Prelude.{◌≤◌, length};
ghost use Rattle.sites.specs.Heads.{RecordsRead};

use crate::heads::read_head;
use crate::lines::Records;
use crate::reading::Reading;
use crate::refusal::{SiteFault, SiteRefusal};
use crate::rooms::Rooms;

// What all records say, or the first line that is not read; no table is written.
pub(crate) fn read_records(bytes: &[u8], rooms: Rooms) -> Result<Reading, SiteRefusal>
    requires { length bytes.now ≤ 16384 }
    ensures { RecordsRead rooms bytes.now result }
{
    let mut records = Records { rest: bytes };
    let mut reading = read_head(&mut records)?;
    let mut line = 3;
    // no `for`: a proof does not learn what `by_ref` leaves, which is looked at below
    while let Some(record) = records.next() {
        reading = reading.take(record, rooms).map_err(|fault| fault.at(line))?;
        line += 1;
    }
    if !records.rest.is_empty() {
        return Err(SiteFault::Misread.at(line));
    }
    Ok(reading)
}

ghost use Rattle.sites.specs.Reader.{SiteRead, tables};

use crate::bodies::read_records;
use crate::refusal::{SiteFault, SiteRefusal};
use crate::rooms::Rooms;
use crate::site::Site;
use crate::writing::write_rows;
use carts::Cart;
use costs::{Pair, Total, Worst};
use floors::LaneRow;

// the number of `pages::MOST_BYTES`, above which crate this one does not stand
const MOST_BYTES: usize = 16_384;

// The site that the bytes say, with its lanes, tariff lines and carts in the first rows of the tables; or the first line that is not read.
// The tables are written only when every record has been read.
pub fn read_site(
    bytes: &[u8],
    lanes: &mut [LaneRow],
    tariff: &mut [Pair<Total, Worst>],
    carts: &mut [Cart],
) -> Result<Site, SiteRefusal>
    ensures { SiteRead bytes.now (tables lanes.old tariff.old carts.old) (tables lanes.new tariff.new carts.new) result }
{
    if bytes.len() > MOST_BYTES {
        return Err(SiteFault::TooLong.at(0));
    }
    let rooms = Rooms {
        lanes: lanes.len(),
        tariff: tariff.len(),
        carts: carts.len(),
    };
    let reading = read_records(bytes, rooms)?;
    let count = usize::from(reading.site.draft.carts());
    write_rows(bytes, lanes, tariff);
    carts[..count].copy_from_slice(&reading.carts[..count]);
    Ok(reading.site)
}

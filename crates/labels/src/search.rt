ghost use Rattle.std.specs.Prelude.{◌<◌, length};
ghost use Rattle.charts.specs.Indexes.{IndexOf};

use crate::query::Query;
use charts::Index;
use floors::Floor;

// The search of one cart's labels: what is asked, and the moves of its floor by the place reached.
#[derive(Drop)]
pub struct Search<'a, F: Floor, C, B> {
    pub query: &'a Query<'a, F, C, B>,
    pub index: &'a Index,
    ghost known: { query.now.cart < length query.now.carts.now },
    ghost indexed: { IndexOf index.now (F.Floor.moves query.now.floor.now) },
}

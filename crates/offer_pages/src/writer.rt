ghost use Rattle.std.specs.Prelude.{◌≤◌, length};
ghost use Rattle.std.proofs.Props.{props};
ghost use Rattle.offer_pages.specs.Carts.{Ready};
ghost use Rattle.offer_pages.specs.Views.{meant};

use crate::view::SiteView;
use costs::CostKind;
use floors::Floor;
use labels::LabelRow;

// What a page is written from: a site that passed the checks, and memory for the labels and the places of one cart.
#[derive(Drop)]
pub struct PageWriter<'a, F: Floor, C: CostKind> {
    pub site: &'a SiteView<'a, F, C>,
    pub rows: Vec<LabelRow<C>>,
    pub places: Vec<u8>,
    ghost ready: { Ready (meant F.Floor.moves C.CostKind.kind site.now) (length rows.items) (length places.items) } by { Prim.hlevel props },
    ghost few: { length site.now.carts.now ≤ 6 },
}

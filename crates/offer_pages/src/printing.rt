ghost use Rattle.std.specs.Prelude.{IfOk};
ghost use Rattle.offer_pages.specs.Pages.{PageMade};
ghost use Rattle.offer_pages.specs.Printed.{Printed, OnePrint};

use crate::fault::Fault;
use crate::page::page_of;
use crate::view::SiteView;
use carts::Cart;
use costs::{CostKind, Pair, Total, Worst};
use floors::LaneRow;
use pages::{Stop, or_line};
use sites::read_site;
use std::alloc::{AllocError, Global};

// The page of the site that the bytes say.
fn make_page(bytes: &[u8], heap: Global) -> Result<Vec<u8>, Stop<Fault>>
    ensures { PageMade bytes.now result }
{
    let mut lanes = [LaneRow {
        from: 0,
        to: 0,
        line: 0,
    }; 1024];
    let mut tariff = [Pair::<Total, Worst>::zero(); 256];
    let mut carts = [Cart { start: 0, goal: 0 }; 6];
    let site = read_site(bytes, &mut lanes, &mut tariff, &mut carts).map_err(Fault::Unread)?;
    let view = SiteView {
        floor: &site.floor,
        tariff: &tariff[..site.tariff],
        carts: &carts[..usize::from(site.draft.carts())],
        horizon: site.draft.horizon(),
    };
    page_of(&view, heap)
}

// What is printed for a site's text: for each cart, as if it were alone, every cost of its walks that none undercuts, each with a walk of it;
// or one line on the first thing that is wrong. It fails only for want of memory. Besides, for each text there is only one thing to print.
pub fn offer_page(bytes: &[u8], heap: Global) -> Result<Vec<u8>, AllocError>
    ensures printed { IfOk result (λ v. Printed bytes.now v.items) }
    ensures one_print { OnePrint }
{
    Ok(or_line(make_page(bytes, heap), heap)?.unwrap_or_else(String::into_bytes))
}

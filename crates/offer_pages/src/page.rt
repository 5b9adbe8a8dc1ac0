ghost use Rattle.std.specs.Prelude.{◌≤◌, length};
ghost use Rattle.offer_pages.specs.Carts.{PageAdded};
ghost use Rattle.offer_pages.specs.Views.{meant};

use crate::checks::check;
use crate::fault::Fault;
use crate::view::SiteView;
use crate::writer::PageWriter;
use costs::CostKind;
use floors::Floor;
use labels::LabelRow;
use pages::Stop;
use std::alloc::Global;

impl<F: Floor, C: CostKind> PageWriter<'_, F, C> {
    // The page.
    fn write_page(&mut self, heap: Global) -> Result<Vec<u8>, Stop<Fault>>
        ensures { PageAdded C.Text.text (meant F.Floor.moves C.CostKind.kind self.old.site.now) result }
    {
        let mut out = Vec::new(heap);
        // a query names its cart by number
        for cart in 0..self.site.carts.len() as u8 {
            self.push_cart(&mut out, cart, heap)?;
        }
        Ok(out)
    }
}

// The page of a site, or the first check that fails.
pub(crate) fn page_of<F: Floor, C: CostKind>(
    site: &SiteView<'_, F, C>,
    heap: Global,
) -> Result<Vec<u8>, Stop<Fault>>
    requires ticks { site.now.horizon ≤ 64 }
    requires few { length site.now.carts.now ≤ 6 }
    ensures { PageAdded C.Text.text (meant F.Floor.moves C.CostKind.kind site.now) result }
{
    check(site)?;
    let mut writer = PageWriter {
        site,
        rows: vec![in heap; LabelRow::<C>::blank(); 2048]?,
        places: vec![in heap; 0u8; usize::from(site.horizon) + 1]?,
    };
    writer.write_page(heap)
}

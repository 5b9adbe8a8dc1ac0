ghost use Rattle.std.specs.Prelude.{◌≡◌, ◌<◌, ◌++◌, length, None, OnOk};
ghost use Rattle.std.specs.List.{slice_get};
ghost use Rattle.carts.specs.Carts.{constraint_of};
ghost use Rattle.labels.specs.Answers.{walk_hindrance};
ghost use Rattle.labels.specs.Queries.{asked, offers_of};
ghost use Rattle.rules.specs.Instances.{cart_count};
ghost use Rattle.offer_pages.specs.Carts.{CartAdded, option_text};
ghost use Rattle.offer_pages.specs.Views.{meant};

use crate::fault::Fault;
use crate::places::Places;
use crate::writer::PageWriter;
use carts::Constraint;
use costs::CostKind;
use floors::Floor;
use labels::{Query, count_offers, take_offer};
use pages::{Stop, push_line};
use std::alloc::{AllocError, Global};

impl<F: Floor, C: CostKind> PageWriter<'_, F, C> {
    // Adds the offer with a number.
    fn push_offer(
        &mut self,
        out: &mut Vec<u8>,
        query: &Query<'_, F, C, Constraint>,
        number: u16,
        heap: Global,
    ) -> Result<(), AllocError>
        requires free { walk_hindrance (asked F.Floor.moves C.CostKind.kind constraint_of query.now) (length self.old.rows.items) (length self.old.places.items) ≡ None }
        requires known { number < length (offers_of (asked F.Floor.moves C.CostKind.kind constraint_of query.now)) }
        ensures site { self.new.site ≡ self.old.site }
        ensures added { OnOk result (out.new.items ≡ out.old.items ++ option_text C.Text.text (slice_get (offers_of (asked F.Floor.moves C.CostKind.kind constraint_of query.now)) number)) }
    {
        let places = self.places.as_mut_slice();
        let offer = take_offer(query, number, self.rows.as_mut_slice(), places).unwrap();
        let cost = offer.unwrap();
        push_line(out, b"QC ", &cost, heap)?;
        let line = Places(places).to_string(heap)?;
        out.extend_from_slice(line.as_bytes())?;
        Ok(())
    }

    // Adds a cart and its offers, as if it were alone.
    pub(crate) fn push_cart(
        &mut self,
        out: &mut Vec<u8>,
        cart: u8,
        heap: Global,
    ) -> Result<(), Stop<Fault>>
        requires known { cart < cart_count (meant F.Floor.moves C.CostKind.kind self.old.site.now) }
        ensures site { self.new.site ≡ self.old.site }
        ensures added { CartAdded C.Text.text (meant F.Floor.moves C.CostKind.kind self.old.site.now) cart out.old.items out.new.items result }
    {
        let query = Query {
            floor: self.site.floor,
            tariff: self.site.tariff,
            carts: self.site.carts,
            horizon: self.site.horizon,
            constraints: &[],
            cart,
        };
        let count = count_offers(&query, self.rows.as_mut_slice()).map_err(|_| Fault::ManyLabels)?;
        let line = format!(in heap; "OF {cart} {count}\n")?;
        out.extend_from_slice(line.as_bytes())?;
        for number in 0..count {
            self.push_offer(out, &query, number, heap)?;
        }
        Ok(())
    }
}

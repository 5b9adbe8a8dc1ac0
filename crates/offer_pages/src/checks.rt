ghost use Rattle.std.specs.Prelude.{◌≡◌, ◌<◌, [], Decides, IfOk, IfErr, slice_index_or};
ghost use Rattle.std.specs.List.{AllByRecursion};
ghost use Rattle.std.proofs.Math.ListN.{get_elem?};
ghost use Rattle.std.proofs.Math.Option.{some};
ghost use Rattle.rules.specs.Instances.{Move};
ghost use Rattle.offer_pages.specs.Conditions.{OnFloor, LinesThere, Checked, FailsAt};
ghost use Rattle.offer_pages.specs.Views.{meant};

use crate::fault::Fault;
use crate::view::SiteView;
use carts::Cart;
use costs::CostKind;
use floors::Floor;

// Whether a cart starts and ends at one of so many places.
fn within(cart: &Cart, places: u8) -> bool
    ensures { Decides result ((cart.now.start < places) × (cart.now.goal < places)) }
{
    cart.start < places && cart.goal < places
}

// Whether each cart starts and ends on the floor.
fn on_floor<F: Floor, C: CostKind>(site: &SiteView<'_, F, C>) -> bool
    ensures { Decides result (OnFloor (meant F.Floor.moves C.CostKind.kind site.now)) }
{
    let places = site.floor.places();
    site.carts.iter().all(|cart| within(cart, places))
}

// Whether a place has a move with a number, and that one pays a line below `lines`.
fn pays_below<F: Floor>(floor: &F, place: u8, number: u8, lines: usize) -> bool
    ensures { Decides result ((m : Move) × (get_elem? (slice_index_or (F.Floor.moves floor.now) place []) number ≡ some m) × (m.line < lines)) }
{
    floor
        .step(place, number)
        .is_some_and(|step| usize::from(step.line) < lines)
}

// Whether each move from a place pays a line below `lines`.
fn all_pay_below<F: Floor>(floor: &F, place: u8, lines: usize) -> bool
    ensures { Decides result (AllByRecursion (λ m. m.line < lines) (slice_index_or (F.Floor.moves floor.now) place [])) }
{
    (0..floor.move_count(place)).all(|number| pays_below(floor, place, number, lines))
}

// Whether the tariff has 1 to 255 lines, and the line of each move among them.
fn lines_there<F: Floor, C: CostKind>(site: &SiteView<'_, F, C>) -> bool
    ensures { Decides result (LinesThere (meant F.Floor.moves C.CostKind.kind site.now)) }
{
    let lines = site.tariff.len();
    (1..=255).contains(&lines)
        && (0..site.floor.places()).all(|place| all_pay_below(site.floor, place, lines))
}

// The first check that a site fails, of those before its labels are counted.
pub(crate) fn check<F: Floor, C: CostKind>(site: &SiteView<'_, F, C>) -> Result<(), Fault>
    ensures passed { IfOk result (λ _. Checked (meant F.Floor.moves C.CostKind.kind site.now)) }
    ensures failed { IfErr result (FailsAt (meant F.Floor.moves C.CostKind.kind site.now)) }
{
    if site.carts.is_empty() {
        return Err(Fault::NoCart);
    }
    if !on_floor(site) {
        return Err(Fault::OffFloor);
    }
    if !lines_there(site) {
        return Err(Fault::NoLine);
    }
    Ok(())
}

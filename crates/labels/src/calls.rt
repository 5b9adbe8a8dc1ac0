ghost use Rattle.std.specs.Prelude.{◌≡◌, ◌+◌, length};
ghost use Rattle.std.specs.List.{slice_get};
ghost use Rattle.labels.specs.Answers.{refusal, hindrance, walk_hindrance, told, LaidOut, Solved, ArrivalsOf, cost_of, walk_of, Inside, CountPromise, WalkPromise};
ghost use Rattle.labels.specs.Queries.{asked, label_total, offers_of};

use crate::arrivals::Arrivals;
use crate::limits::{MOST_ROWS, MOST_TICKS, STARTS};
use crate::query::Query;
use crate::refusal::LabelRefusal;
use crate::row::LabelRow;
use crate::tables::fill_labels;
use carts::Constrains;
use costs::CostKind;
use floors::Floor;

// Whether a query is refused before any label is counted.
fn admit<F: Floor, C: CostKind, B: Constrains>(
    query: &Query<'_, F, C, B>,
    rows: usize,
) -> Result<(), LabelRefusal>
    ensures { result ≡ told (refusal (asked F.Floor.moves C.CostKind.kind B.Constrains.constraint query.now) rows) tt }
{
    if query.horizon > MOST_TICKS {
        return Err(LabelRefusal::HorizonTooLong);
    }
    if rows > MOST_ROWS {
        return Err(LabelRefusal::TooManyRows);
    }
    let cart = query
        .carts
        .get(query.cart as usize)
        .ok_or(LabelRefusal::NoSuchCart)?;
    if cart.start >= query.floor.places() {
        return Err(LabelRefusal::StartOffFloor);
    }
    if cart.goal >= query.floor.places() {
        return Err(LabelRefusal::GoalOffFloor);
    }
    Ok(())
}

// All labels of the cart, in the rows; and where each cell begins.
fn lay_out<F: Floor, C: CostKind, B: Constrains>(
    query: &Query<'_, F, C, B>,
    rows: &mut [LabelRow<C>],
    starts: &mut [u16; STARTS],
) -> Result<usize, LabelRefusal>
    ensures { LaidOut (asked F.Floor.moves C.CostKind.kind B.Constrains.constraint query.now) (length rows.old) rows.new starts.new result }
{
    admit(query, rows.len())?;
    fill_labels(query, rows, starts).ok_or(LabelRefusal::NoRowLeft)
}

// How many labels the cart has.
pub fn count_labels<F: Floor, C: CostKind, B: Constrains>(
    query: &Query<'_, F, C, B>,
    rows: &mut [LabelRow<C>],
) -> Result<u16, LabelRefusal>
    ensures { result ≡ told (hindrance (asked F.Floor.moves C.CostKind.kind B.Constrains.constraint query.now) (length rows.old)) (label_total (asked F.Floor.moves C.CostKind.kind B.Constrains.constraint query.now)) }
{
    let mut starts = [0u16; STARTS];
    let n = lay_out(query, rows, &mut starts)?;
    Ok(n as u16)
}

// The labels of the cart that arrive, once all of its labels are in the rows.
fn arrivals_of<'a, F: Floor, C: CostKind, B: Constrains>(
    query: &Query<'_, F, C, B>,
    rows: &'a [LabelRow<C>],
    starts: &'a [u16; STARTS],
    end: usize,
) -> Arrivals<'a, C>
    requires { Solved (asked F.Floor.moves C.CostKind.kind B.Constrains.constraint query.now) rows.now starts.now end }
    ensures { ArrivalsOf (asked F.Floor.moves C.CostKind.kind B.Constrains.constraint query.now) result }
{
    Arrivals {
        rows: &rows[..end],
        starts,
        landing: query.landing_of(),
    }
}

// How many offers the cart has.
pub fn count_offers<F: Floor, C: CostKind, B: Constrains>(
    query: &Query<'_, F, C, B>,
    rows: &mut [LabelRow<C>],
) -> Result<u16, LabelRefusal>
    ensures counted { result ≡ told (hindrance (asked F.Floor.moves C.CostKind.kind B.Constrains.constraint query.now) (length rows.old)) (length (offers_of (asked F.Floor.moves C.CostKind.kind B.Constrains.constraint query.now))) }
    ensures promise { Inside (asked F.Floor.moves C.CostKind.kind B.Constrains.constraint query.now).inst → CountPromise (asked F.Floor.moves C.CostKind.kind B.Constrains.constraint query.now) result }
{
    let mut starts = [0u16; STARTS];
    let end = lay_out(query, rows, &mut starts)?;
    let arrivals = arrivals_of(query, rows, &starts, end);
    Ok(arrivals.offers().count() as u16)
}

// The cost of the offer with a number, whose walk is written into `places`; or none, where the cart has no such offer.
pub fn take_offer<F: Floor, C: CostKind, B: Constrains>(
    query: &Query<'_, F, C, B>,
    number: u16,
    rows: &mut [LabelRow<C>],
    places: &mut [u8],
) -> Result<Option<C>, LabelRefusal>
    ensures answer { result ≡ cost_of (told (walk_hindrance (asked F.Floor.moves C.CostKind.kind B.Constrains.constraint query.now) (length rows.old) (length places.old)) (slice_get (offers_of (asked F.Floor.moves C.CostKind.kind B.Constrains.constraint query.now)) number)) }
    ensures written { places.new ≡ walk_of (told (walk_hindrance (asked F.Floor.moves C.CostKind.kind B.Constrains.constraint query.now) (length rows.old) (length places.old)) (slice_get (offers_of (asked F.Floor.moves C.CostKind.kind B.Constrains.constraint query.now)) number)) places.old }
    ensures promise { Inside (asked F.Floor.moves C.CostKind.kind B.Constrains.constraint query.now).inst → WalkPromise (asked F.Floor.moves C.CostKind.kind B.Constrains.constraint query.now) number places.new result }
{
    if places.len() != query.horizon as usize + 1 {
        return Err(LabelRefusal::WrongLength);
    }
    let mut starts = [0u16; STARTS];
    let end = lay_out(query, rows, &mut starts)?;
    let arrivals = arrivals_of(query, rows, &starts, end);
    Ok(arrivals.write_offer(number, places))
}

use crate::all_walks::{all_beginnings, walks_of};
use crate::beginning::Beginning;
use crate::costs_kept::undominated;
use crate::generated::Generated;
use crate::trial::Trial;
use carts::Constraint;
use floors::Floor;
use labels::{LabelRow, Query, count_labels, count_offers, take_offer};
use std::alloc::{AllocError, Global};

// How many labels there are: the undominated costs of each tick and place.
fn label_total<F: Floor, C: Generated>(
    heap: Global,
    query: &Query<'_, F, C, Constraint>,
    beginnings: &[Beginning<C>],
) -> Result<usize, AllocError> {
    let mut total = 0usize;
    for moves in 0..=query.horizon {
        for place in 0..query.floor.places() {
            let costs: Vec<C> = beginnings
                .iter()
                .filter(|beginning| beginning.moves == moves && beginning.end() == place)
                .map(|beginning| beginning.cost)
                .collect(heap)?;
            let labels = undominated(heap, costs.as_slice())?.len();
            total = total.saturating_add(labels);
        }
    }
    Ok(total)
}

// Whether a walk has the cost, and arrives no later than any other that has it.
fn is_earliest<C: Generated>(walks: &[Beginning<C>], walk: &Beginning<C>, cost: C) -> bool {
    walk.cost == cost
        && walks
            .iter()
            .all(|other| other.cost != cost || walk.moves <= other.moves)
}

// Whether the places are those of a walk that has the cost, and arrives no later than any other that has it.
fn is_walked<C: Generated>(walks: &[Beginning<C>], cost: C, places: &[u8]) -> bool {
    walks.iter().any(|walk| walk.places.starts_with(places) && is_earliest(walks, walk, cost))
}

// Whether the offers, `count` of them, are the undominated costs of the walks, each once and in order, each with a walk that has it, and no more.
fn offers_agree<F: Floor, C: Generated>(
    heap: Global,
    query: &Query<'_, F, C, Constraint>,
    walks: &[Beginning<C>],
    count: u16,
    rows: &mut [LabelRow<C>],
) -> Result<bool, AllocError> {
    let walk_costs: Vec<C> = walks.iter().map(|walk| walk.cost).collect(heap)?;
    let costs = undominated(heap, walk_costs.as_slice())?;
    let mut places = vec![in heap; 0u8; usize::from(query.horizon) + 1]?;
    let mut last: Option<C> = None;
    for number in 0..count {
        let Ok(Some(cost)) = take_offer(query, number, rows, places.as_mut_slice()) else {
            return Ok(false);
        };
        if !costs.as_slice().contains(&cost)
            || !last.is_none_or(|before| before.before(cost))
            || !is_walked(walks, cost, places.as_slice())
        {
            return Ok(false);
        }
        last = Some(cost);
    }
    let no_more = matches!(
        take_offer(query, count, rows, places.as_mut_slice()),
        Ok(None)
    );
    Ok(usize::from(count) == costs.len() && no_more)
}

// The number of offers, if the label search and the search that tries every walk agree: in the number of labels and in all offers.
pub(crate) fn compare<F: Floor, C: Generated>(
    heap: Global,
    trial: &Trial<'_, F, C>,
    rows: &mut [LabelRow<C>],
) -> Result<Option<u16>, AllocError> {
    let query = trial.query();
    let cart = trial.searched();
    let beginnings = all_beginnings(heap, &query, cart.start)?;
    let walks = walks_of(heap, &query, cart.goal, beginnings.as_slice())?;
    let total = label_total(heap, &query, beginnings.as_slice())?;
    let (Ok(labels), Ok(offers)) = (count_labels(&query, rows), count_offers(&query, rows)) else {
        return Ok(None);
    };
    let agree = usize::from(labels) == total
        && offers_agree(heap, &query, walks.as_slice(), offers, rows)?;
    Ok(agree.then_some(offers))
}

use crate::beginning::Beginning;
use carts::Constraint;
use costs::CostKind;
use floors::Floor;
use labels::Query;
use std::alloc::{AllocError, Global};

// Every beginning of one move more than those given, whether it keeps the constraints or not.
fn one_longer<F: Floor, C: CostKind>(
    heap: Global,
    query: &Query<'_, F, C, Constraint>,
    beginnings: &[Beginning<C>],
) -> Result<Vec<Beginning<C>>, AllocError> {
    let mut longer = Vec::new(heap);
    for beginning in beginnings {
        let moves = query.floor.move_count(beginning.end());
        longer.extend((0..moves).filter_map(|number| beginning.longer(query, number)))?;
    }
    Ok(longer)
}

// Every beginning that keeps the constraints as far as it has come, up to the horizon: all sequences of moves are tried.
pub(crate) fn all_beginnings<F: Floor, C: CostKind>(
    heap: Global,
    query: &Query<'_, F, C, Constraint>,
    start: u8,
) -> Result<Vec<Beginning<C>>, AllocError> {
    let mut longest = vec![in heap; Beginning::standing(start); 1]?;
    let mut all = longest.clone()?;
    for _ in 0..query.horizon {
        longest = one_longer(heap, query, longest.as_slice())?;
        all.extend_from_slice(longest.as_slice())?;
    }
    all.retain(|beginning| beginning.keeps(query, beginning.moves));
    Ok(all)
}

// The walks among them: those that end at the goal and may stand there to the horizon.
pub(crate) fn walks_of<F: Floor, C: CostKind>(
    heap: Global,
    query: &Query<'_, F, C, Constraint>,
    goal: u8,
    beginnings: &[Beginning<C>],
) -> Result<Vec<Beginning<C>>, AllocError> {
    beginnings
        .iter()
        .copied()
        .filter(|walk| walk.end() == goal && walk.keeps(query, query.horizon))
        .collect(heap)
}

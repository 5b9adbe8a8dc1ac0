use costs::CostKind;
use std::alloc::{AllocError, Global};

// Whether some cost is less.
fn is_dominated<C: CostKind>(costs: &[C], cost: C) -> bool {
    costs
        .iter()
        .any(|other| other.at_most(cost) && !cost.at_most(*other))
}

// The costs that no other dominates, each once, in no order.
pub(crate) fn undominated<C: CostKind + PartialEq>(
    heap: Global,
    costs: &[C],
) -> Result<Vec<C>, AllocError> {
    let mut kept = Vec::new(heap);
    for cost in costs {
        if !kept.as_slice().contains(cost) && !is_dominated(costs, *cost) {
            kept.push(*cost)?;
        }
    }
    Ok(kept)
}

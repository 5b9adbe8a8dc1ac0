ghost use Rattle.std.specs.Prelude.{IfOk};
ghost use Rattle.prices.specs.Answers.{output};
ghost use Rattle.prices.specs.Printed.{Printed, OneReadings, PagesExactly, OnePrint};

use crate::making::answer_list;
use crate::refusal::{Fault, Refusal};
use costs::{Pair, Total, Worst, Zones};
use std::alloc::{AllocError, Global};

// What is printed for the list of this name and the input: the page of the front of the costs that the input says, or
// one line on the first thing that is wrong. It fails only for want of memory.
// Besides: an input is read in one way only, there is a page exactly where it says a list, and there is only one thing to print.
#[tactic(auto, using(crate::proofs::OnePrints::one_readings, crate::proofs::OnePrints::pages_exactly))]
pub fn front_page(
    name: &str,
    input: &[u8],
    heap: Global,
) -> Result<Result<Vec<u8>, String>, AllocError>
    ensures printed { IfOk result (λ a. Printed name.now input.now (output a)) }
    ensures one_reading { OneReadings }
    ensures pages_exactly { PagesExactly }
    ensures one_print { OnePrint }
{
    match name {
        "costs" => answer_list::<Pair<Total, Worst>>(input, heap),
        "zones" => answer_list::<Zones>(input, heap),
        _ => {
            let refusal = Refusal {
                line: 0,
                fault: Fault::UnknownList,
            };
            Ok(Err(refusal.to_string(heap)?))
        }
    }
}

ghost use Rattle.std.specs.Prelude.{◌≡◌};
ghost use Rattle.prices.specs.CostLines.{cost_line, CostLarge, both_read};
ghost use Rattle.prices.specs.CostReads.{cost_lines};

use crate::priced::Priced;
use costs::{Pair, Total, Worst};
use digits::{ReadFault, read_number, split_once};

// Both numbers, if both are read. That one is not a number comes before that one is too large.
fn both(a: Result<u32, ReadFault>, b: Result<u32, ReadFault>) -> Result<(u32, u32), ReadFault>
    ensures { result ≡ both_read a b }
{
    match (a, b) {
        (Ok(m), Ok(n)) => Ok((m, n)),
        (Err(ReadFault::Malformed), _) | (_, Err(ReadFault::Malformed)) => Err(
            ReadFault::Malformed,
        ),
        _ => Err(ReadFault::TooLarge),
    }
}

impl Priced for Pair<Total, Worst> {
    ghost line = { cost_line };

    ghost large = { CostLarge };

    ghost lines = { cost_lines };

    fn read_line(bytes: &[u8]) -> Result<Pair<Total, Worst>, ReadFault> {
        let (left, right) = split_once(bytes, b' ').ok_or(ReadFault::Malformed)?;
        let (total, worst) = both(
            read_number(left, u32::MAX),
            read_number(right, u32::from(u16::MAX)),
        )?;
        Ok(Pair {
            first: Total { value: total },
            // it was read as at most `u16::MAX`
            second: Worst {
                value: worst as u16,
            },
        })
    }
}

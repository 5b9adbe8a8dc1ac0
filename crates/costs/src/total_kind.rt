ghost use Rattle.costs.specs.Totals.{total_kind};
ghost use Rattle.costs.specs.TotalLaws.{total_texts, total_laws};

use crate::kind::CostKind;
use crate::number::Number;
use crate::total::Total;

impl Number for Total {
    ghost number = { λ c. c.value };

    ghost texts = { total_texts };

    fn number(self) -> u64 {
        self.value.into()
    }
}

impl CostKind for Total {
    ghost kind = { total_kind };

    ghost laws = { total_laws };

    fn zero() -> Total {
        Total { value: 0 }
    }

    fn join(self, other: Total) -> Total {
        Total {
            value: self.value.saturating_add(other.value),
        }
    }

    fn at_most(self, other: Total) -> bool {
        self <= other
    }

    fn before(self, other: Total) -> bool {
        self < other
    }
}

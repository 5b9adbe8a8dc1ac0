ghost use Rattle.costs.specs.Worsts.{worst_kind};
ghost use Rattle.costs.specs.WorstLaws.{worst_texts, worst_laws};

use crate::kind::CostKind;
use crate::number::Number;
use crate::worst::Worst;

impl Number for Worst {
    ghost number = { λ c. c.value };

    ghost texts = { worst_texts };

    fn number(self) -> u64 {
        self.value.into()
    }
}

impl CostKind for Worst {
    ghost kind = { worst_kind };

    ghost laws = { worst_laws };

    fn zero() -> Worst {
        Worst { value: 0 }
    }

    fn join(self, other: Worst) -> Worst {
        Worst {
            value: self.value.max(other.value),
        }
    }

    fn at_most(self, other: Worst) -> bool {
        self <= other
    }

    fn before(self, other: Worst) -> bool {
        self < other
    }
}

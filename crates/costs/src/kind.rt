ghost use Rattle.std.specs.Prelude.{◌≡◌};
ghost use Rattle.rules.specs.Kinds.{Kind, Laws};

use crate::text::Text;

// A kind of cost: what it means is a `Kind` of the rules, and it keeps that kind's laws.
pub trait CostKind: Text + Copy + Drop {
    ghost kind: { Kind Self };

    fn zero() -> Self
        ensures { result ≡ kind.zero };

    fn join(self, other: Self) -> Self
        ensures { result ≡ kind.join self other };

    fn at_most(self, other: Self) -> bool
        ensures { result ≡ kind.at_most self other };

    // Whether it stands before the other in the kind's order.
    fn before(self, other: Self) -> bool
        ensures { result ≡ kind.before self other };

    ghost laws: { Laws kind };
}

ghost use Rattle.std.specs.Prelude.{◌≡◌};
ghost use Rattle.labels.specs.Picks.{leads, comes_after};

use costs::CostKind;

// Whether `c` comes before the best cost so far.
pub(crate) fn comes_first<C: CostKind>(best: Option<C>, c: C) -> bool
    ensures { result ≡ leads C.CostKind.kind best c }
{
    best.is_none_or(|b| c.before(b))
}

// Whether `c` comes after the last cost taken.
pub(crate) fn is_after<C: CostKind>(last: Option<C>, c: C) -> bool
    ensures { result ≡ comes_after C.CostKind.kind last c }
{
    last.is_none_or(|b| b.before(c))
}

ghost use Rattle.std.specs.Prelude.{◌≡◌};
ghost use Rattle.rules.specs.Walks.{Constraint as Rule};
ghost use Rattle.carts.specs.Carts.{constraint_of};

use crate::constraint::Constraint;

// What puts one constraint on a cart.
pub trait Constrains {
    ghost constraint: { Self → Rule };

    fn constraint(&self) -> Constraint
        ensures { constraint_of result ≡ constraint self.now };
}

impl Constrains for Constraint {
    ghost constraint = { constraint_of };

    fn constraint(&self) -> Constraint {
        *self
    }
}

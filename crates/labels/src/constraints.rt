ghost use Rattle.std.specs.Prelude.{◌≡◌, Bool, map};
ghost use Rattle.rules.specs.Walks.{Constraint as Rule, any_of, forbids_place, forbids_move};
ghost use Rattle.carts.specs.Carts.{constraint_of};
ghost use Rattle.labels.specs.Seeking.{names, leads_to};

use carts::{Constrains, Constraint};

// Each test matches the fields: by `==` with a whole constraint the search under 200 constraints took some 5 % longer, both measured on a busy machine.
// Whether a constraint is on a cart at a tick.
pub(crate) fn is_on(constraint: Constraint, cart: u8, tick: u8) -> bool
    ensures { result ≡ names cart tick (constraint_of constraint) }
{
    match constraint {
        Constraint::Vertex {
            cart: c,
            tick: t,
            ..
        }
        | Constraint::Edge {
            cart: c,
            tick: t,
            ..
        } => cart == c && tick == t,
    }
}

// Whether it is on the cart's moves to a place, leaving at a tick.
pub(crate) fn bars_moves_to(constraint: Constraint, cart: u8, to: u8, tick: u8) -> bool
    ensures { result ≡ leads_to cart to tick (constraint_of constraint) }
{
    matches!(constraint, Constraint::Edge { cart: c, to: v, tick: t, .. } if cart == c && to == v && tick == t)
}

// Whether it keeps the cart from a place at a tick.
pub(crate) fn forbids_being_at(constraint: Constraint, cart: u8, place: u8, tick: u8) -> bool
    ensures { result ≡ forbids_place cart place tick (constraint_of constraint) }
{
    matches!(constraint, Constraint::Vertex { cart: c, place: p, tick: t } if cart == c && place == p && tick == t)
}

// Whether it keeps the cart from a move, leaving at a tick.
pub(crate) fn forbids_going(constraint: Constraint, cart: u8, from: u8, to: u8, tick: u8) -> bool
    ensures { result ≡ forbids_move cart from to tick (constraint_of constraint) }
{
    matches!(constraint, Constraint::Edge { cart: c, from: u, to: v, tick: t } if cart == c && from == u && to == v && tick == t)
}

// Whether some constraint passes a test.
// A `for`: by `iter().any(..)` the search under 200 constraints took a tenth to a fifth longer, both measured on a busy machine.
pub(crate) fn some<B: Constrains, P: Fn(Constraint) -> bool>(constraints: &[B], test: P) -> bool
    requires { P.IsAlwaysCallable test }
    ensures { (passes : Rule → Bool) → ((x : Constraint) (b : Bool) → P.post test x b → b ≡ passes (constraint_of x)) → result ≡ any_of passes (map B.Constrains.constraint constraints.now) }
{
    for held in constraints {
        if test(held.constraint()) {
            return true;
        }
    }
    false
}

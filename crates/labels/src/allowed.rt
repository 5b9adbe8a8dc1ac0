ghost use Rattle.std.specs.Prelude.{◌≡◌};
ghost use Rattle.labels.specs.Queries.{asked, may_be_at, may_take};
ghost use Rattle.labels.specs.Seeking.{busy_at, barred_to};

use crate::constraints::{bars_moves_to, forbids_being_at, forbids_going, is_on, some};
use crate::query::Query;
use carts::Constrains;
use costs::CostKind;
use floors::Floor;

// What is known of a tick, `busy`, and of the moves to a place then, `barred`, is passed along: where it is false, no look among the constraints is needed.
impl<F: Floor, C: CostKind, B: Constrains> Query<'_, F, C, B> {
    // Whether any constraint is on the cart at a tick.
    pub(crate) fn is_busy(&self, tick: u8) -> bool
        ensures { result ≡ busy_at (asked F.Floor.moves C.CostKind.kind B.Constrains.constraint self.now) tick }
    {
        let cart = self.cart;
        some(self.constraints, |held| is_on(held, cart, tick))
    }

    // Whether any constraint is on the cart's moves to a place, leaving at a tick; `busy` says whether any is on it at the tick.
    pub(crate) fn is_barred(&self, busy: bool, to: u8, tick: u8) -> bool
        requires { busy ≡ busy_at (asked F.Floor.moves C.CostKind.kind B.Constrains.constraint self.now) tick }
        ensures { result ≡ barred_to (asked F.Floor.moves C.CostKind.kind B.Constrains.constraint self.now) to tick }
    {
        let cart = self.cart;
        busy && some(self.constraints, |held| bars_moves_to(held, cart, to, tick))
    }

    // Whether the cart may be at a place at a tick.
    pub(crate) fn is_free(&self, place: u8, tick: u8) -> bool
        ensures { result ≡ may_be_at (asked F.Floor.moves C.CostKind.kind B.Constrains.constraint self.now) place tick }
    {
        let cart = self.cart;
        !some(
            self.constraints,
            |held| forbids_being_at(held, cart, place, tick),
        )
    }

    // The same, where `busy` says whether any constraint is on the cart then.
    pub(crate) fn may_be(&self, busy: bool, place: u8, tick: u8) -> bool
        requires { busy ≡ busy_at (asked F.Floor.moves C.CostKind.kind B.Constrains.constraint self.now) tick }
        ensures { result ≡ may_be_at (asked F.Floor.moves C.CostKind.kind B.Constrains.constraint self.now) place tick }
    {
        !busy || self.is_free(place, tick)
    }

    // Whether the cart may go from one place to another, leaving at a tick; `barred` says whether any constraint is on its moves to the latter then.
    pub(crate) fn may_go(&self, barred: bool, from: u8, to: u8, tick: u8) -> bool
        requires { barred ≡ barred_to (asked F.Floor.moves C.CostKind.kind B.Constrains.constraint self.now) to tick }
        ensures { result ≡ may_take (asked F.Floor.moves C.CostKind.kind B.Constrains.constraint self.now) from to tick }
    {
        let cart = self.cart;
        !barred
            || !some(
                self.constraints,
                |held| forbids_going(held, cart, from, to, tick),
            )
    }
}

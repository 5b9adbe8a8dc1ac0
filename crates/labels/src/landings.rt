ghost use Rattle.std.specs.Prelude.{◌<◌, length};
ghost use Rattle.labels.specs.Arrivals.{StandsFrom, LandingOf};
ghost use Rattle.labels.specs.Queries.{asked};

use crate::landing::Landing;
use crate::query::Query;
use carts::Constrains;
use costs::CostKind;
use floors::Floor;

impl<F: Floor, C: CostKind, B: Constrains> Query<'_, F, C, B> {
    // The tick from which on the cart may stand at its goal to the horizon: the last one at which it may not be there.
    fn stands_from(&self) -> u8
        requires { self.now.cart < length self.now.carts.now }
        ensures { StandsFrom (asked F.Floor.moves C.CostKind.kind B.Constrains.constraint self.now) result }
    {
        let place = self.carts[self.cart as usize].goal;
        (1..=self.horizon)
            .rev()
            .find(|tick| !self.is_free(place, *tick))
            .unwrap_or(0)
    }

    // Where the labels that arrive stand.
    pub(crate) fn landing_of(&self) -> Landing
        requires { self.now.cart < length self.now.carts.now }
        ensures { LandingOf (asked F.Floor.moves C.CostKind.kind B.Constrains.constraint self.now) result }
    {
        Landing {
            first: self.stands_from(),
            horizon: self.horizon,
            goal: self.carts[self.cart as usize].goal,
            places: self.floor.places(),
        }
    }
}

use carts::Constraint;
use costs::CostKind;
use floors::Floor;
use labels::Query;

// The ticks of a trial: 0 to 4.
const TICKS: usize = 5;

// A walk's beginning: how many moves it makes, where the cart is at each tick if it stands still after them, and what they cost.
#[derive(Clone, Copy)]
pub struct Beginning<C> {
    pub moves: u8,
    pub places: [u8; TICKS],
    pub cost: C,
}

impl<C: CostKind> Beginning<C> {
    // The beginning with no move.
    pub(crate) fn standing(start: u8) -> Beginning<C> {
        Beginning {
            moves: 0,
            places: [start; TICKS],
            cost: C::zero(),
        }
    }

    // Where the last move leads.
    pub(crate) fn end(&self) -> u8 {
        self.places[TICKS - 1]
    }

    // The beginning with one move more, which has the given number at its end, if it is there.
    pub(crate) fn longer<F: Floor>(
        &self,
        query: &Query<'_, F, C, Constraint>,
        number: u8,
    ) -> Option<Beginning<C>> {
        let step = query.floor.step(self.end(), number)?;
        let price = query.tariff.get(usize::from(step.line))?;
        let moves = self.moves.saturating_add(1);
        let mut places = self.places;
        for place in places.iter_mut().skip(usize::from(moves)) {
            *place = step.to;
        }
        Some(Beginning {
            moves,
            places,
            cost: self.cost.join(*price),
        })
    }

    fn is_at(&self, place: u8, tick: u8) -> bool {
        self.places
            .get(usize::from(tick))
            .is_some_and(|at| *at == place)
    }

    // Whether it goes against a constraint, where the cart stands still from its last move to the tick `last`.
    fn breaks(&self, constraint: Constraint, cart: u8, last: u8) -> bool {
        match constraint {
            Constraint::Vertex {
                cart: c,
                place,
                tick,
            } => c == cart && tick <= last && self.is_at(place, tick),
            Constraint::Edge {
                cart: c,
                from,
                to,
                tick,
            } => c == cart
                && tick < self.moves
                && self.is_at(from, tick)
                && self.is_at(to, tick + 1),
        }
    }

    // Whether it keeps every constraint of a query, where the cart stands still from its last move to the tick `last`.
    pub(crate) fn keeps<F: Floor>(&self, query: &Query<'_, F, C, Constraint>, last: u8) -> bool {
        query
            .constraints
            .iter()
            .all(|constraint| !self.breaks(*constraint, query.cart, last))
    }
}

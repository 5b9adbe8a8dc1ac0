ghost use Rattle.std.specs.Prelude.{◌≤◌};

use crate::floors_made::LINES;
use crate::generated::Generated;
use crate::numbers::Numbers;
use carts::{Cart, Constraint};
use floors::Floor;
use labels::Query;
use std::alloc::{AllocError, Global};

// A trial on a floor: two carts, and which of them is searched for.
#[derive(Drop)]
pub struct Trial<'a, F, C: Drop> {
    floor: &'a F,
    tariff: Vec<C>,
    carts: [Cart; 2],
    cart: u8,
    horizon: u8,
    constraints: Vec<Constraint>,
    ghost known: { cart ≤ 1 },
}

fn make_cart(numbers: &mut Numbers, places: u8) -> Cart {
    Cart {
        start: numbers.below(places),
        goal: numbers.below(places),
    }
}

// A constraint on one of two carts: on a place, on the goal, or on a move of the floor.
fn make_constraint<F: Floor>(
    numbers: &mut Numbers,
    floor: &F,
    goal: u8,
    horizon: u8,
) -> Constraint {
    let cart = numbers.below(2);
    let place = numbers.below(floor.places());
    let tick = numbers.below(horizon) + 1;
    match (numbers.below(4), floor.step(place, numbers.below(3))) {
        (0, _) => Constraint::Vertex {
            cart,
            place: goal,
            tick,
        },
        (1, _) => Constraint::Vertex {
            cart,
            place,
            tick: tick - 1,
        },
        (_, Some(step)) => Constraint::Edge {
            cart,
            from: place,
            to: step.to,
            tick: tick - 1,
        },
        (_, None) => Constraint::Vertex { cart, place, tick },
    }
}

impl<'a, F: Floor, C: Generated> Trial<'a, F, C> {
    // A trial with one to `most` constraints on its carts; with none where that is 0.
    pub(crate) fn generate(
        heap: Global,
        numbers: &mut Numbers,
        floor: &'a F,
        most: u8,
    ) -> Result<Trial<'a, F, C>, AllocError> {
        let tariff = (0..LINES).map(|_| C::generate(numbers)).collect(heap)?;
        let carts = [
            make_cart(numbers, floor.places()),
            make_cart(numbers, floor.places()),
        ];
        let cart = numbers.below(2);
        let goal = carts[usize::from(cart)].goal;
        let horizon = numbers.below(4) + 1;
        let count = if most == 0 {
            0
        } else {
            numbers.below(most) + 1
        };
        let constraints = (0..count)
            .map(|_| make_constraint(numbers, floor, goal, horizon))
            .collect(heap)?;
        Ok(Trial {
            floor,
            tariff,
            carts,
            cart,
            horizon,
            constraints,
        })
    }

    // The cart that is searched for.
    pub(crate) fn searched(&self) -> Cart {
        self.carts[usize::from(self.cart)]
    }

    pub(crate) fn query(&self) -> Query<'_, F, C, Constraint> {
        Query {
            floor: self.floor,
            tariff: self.tariff.as_slice(),
            carts: &self.carts,
            horizon: self.horizon,
            constraints: self.constraints.as_slice(),
            cart: self.cart,
        }
    }
}

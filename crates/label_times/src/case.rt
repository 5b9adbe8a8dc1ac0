use crate::worded::Worded;
use crate::words::Words;
use anyhow::bail;
use carts::{Cart, Constraint};
use labels::Query;
use std::alloc::Global;

// What a case says after its floor: the tariff, the one cart, the horizon and the constraints on the cart.
#[derive(Drop)]
pub struct Case<C: Drop> {
    tariff: Vec<C>,
    carts: [Cart; 1],
    horizon: u8,
    constraints: Vec<Constraint>,
}

impl<C: Worded> Case<C> {
    pub(crate) fn read(heap: Global, words: &mut Words<'_>) -> anyhow::Result<Case<C>> {
        let tariff = read_tariff(heap, words)?;
        let carts = [read_cart(words)?];
        words.pass("horizon")?;
        let horizon = words.number::<u8>()?;
        let constraints = read_constraints(heap, words)?;
        Ok(Case {
            tariff,
            carts,
            horizon,
            constraints,
        })
    }

    // What the case asks of its cart on a floor. The trials of `label_trials` lend the same fields, of two carts and a floor of their own: a crate for
    // both would be longer than these lines.
    pub(crate) fn query<'a, F>(&'a self, floor: &'a F) -> Query<'a, F, C, Constraint> {
        Query {
            floor,
            tariff: self.tariff.as_slice(),
            carts: &self.carts,
            horizon: self.horizon,
            constraints: self.constraints.as_slice(),
            cart: 0,
        }
    }
}

fn read_tariff<C: Worded>(heap: Global, words: &mut Words<'_>) -> anyhow::Result<Vec<C>> {
    words.pass("tariff")?;
    let count = words.number::<u16>()?;
    (0..count).map(|_| C::read(words)).try_collect(heap)
}

fn read_cart(words: &mut Words<'_>) -> anyhow::Result<Cart> {
    words.pass("cart")?;
    Ok(Cart {
        start: words.number()?,
        goal: words.number()?,
    })
}

fn read_constraint(words: &mut Words<'_>) -> anyhow::Result<Constraint> {
    Ok(match words.word()? {
        "v" => Constraint::Vertex {
            cart: 0,
            place: words.number()?,
            tick: words.number()?,
        },
        "e" => Constraint::Edge {
            cart: 0,
            from: words.number()?,
            to: words.number()?,
            tick: words.number()?,
        },
        _ => bail!("a constraint begins with neither v nor e"),
    })
}

fn read_constraints(heap: Global, words: &mut Words<'_>) -> anyhow::Result<Vec<Constraint>> {
    words.pass("constraints")?;
    let count = words.number::<u16>()?;
    (0..count).map(|_| read_constraint(words)).try_collect(heap)
}

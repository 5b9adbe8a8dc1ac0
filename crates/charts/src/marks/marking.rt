ghost use Rattle.std.specs.Prelude.{◌≡◌, ◌<◌, false, ◌&&◌, length, ◌==◌};
ghost use Rattle.rules.specs.Walks.{forbids_place, forbids_move};
ghost use Rattle.carts.specs.Carts.{constraint_of};
ghost use Rattle.charts.specs.Charts.{Barred, ClosedAlong};

use crate::inbound::Inbound;
use crate::marks::Marks;
use crate::ticks::Ticks;
use carts::Constraint;

// Closes at a tick those of the moves that leave from a place.
fn close_from(moves: &[Inbound], closed: &mut [Ticks], from: u8, tick: u8)
    requires { length moves.now ≡ length closed.old }
    ensures { ClosedAlong moves.now closed.old closed.new from tick }
{
    // By number: of a `zip` with `closed.iter_mut()` the proof keeps no element that was written.
    for (number, step) in moves.iter().enumerate() {
        if step.from == from {
            closed[number] = closed[number].with(tick);
        }
    }
}

impl Marks<'_> {
    // What one constraint forbids the cart.
    pub(crate) fn add(&mut self, constraint: Constraint, cart: u8)
        ensures { Barred self.old self.new (λ p t. forbids_place cart p t (constraint_of constraint)) (λ u p t. forbids_move cart u p t (constraint_of constraint)) }
    {
        match constraint {
            Constraint::Vertex {
                cart: of,
                place,
                tick,
            } if of == cart => self.shut_cell(place, tick),
            Constraint::Edge {
                cart: of,
                from,
                to,
                tick,
            } if of == cart => self.close_moves(from, to, tick),
            _ => {}
        }
    }

    // Shuts the cell of a place at a tick, if there is one.
    fn shut_cell(&mut self, place: u8, tick: u8)
        ensures { Barred self.old self.new (λ p t. (p == place) && t == tick) (λ u p t. false) }
    {
        if place < self.places && tick <= 64 {
            self.shut[usize::from(tick) * usize::from(self.places) + usize::from(place)] = true;
        }
    }

    // Closes at a tick the moves from one place to another, if there are any.
    fn close_moves(&mut self, from: u8, to: u8, tick: u8)
        ensures { Barred self.old self.new (λ p t. false) (λ u p t. ((u == from) && p == to) && t == tick) }
    {
        if to >= self.places {
            return;
        }
        let index = self.index;
        let begin = usize::from(index.begin(usize::from(to)));
        let end = usize::from(index.begin(usize::from(to) + 1));
        let closed = &mut *self.closed;
        close_from(
            &index.moves[begin..end],
            &mut closed[begin..end],
            from,
            tick,
        );
    }
}

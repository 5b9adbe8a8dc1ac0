ghost use Rattle.std.specs.Prelude.{map};
ghost use Rattle.charts.specs.Charts.{Drawn};

use crate::chart::Chart;
use crate::marks::Marks;
use carts::Constrains;
use floors::Floor;

// Draws into a chart, in place, the moves of a floor, and what the constraints forbid a cart there; what was shut or closed stays so.
pub fn draw<F: Floor, B: Constrains>(floor: &F, constraints: &[B], cart: u8, chart: &mut Chart)
    ensures { Drawn (F.Floor.moves floor.now) (map B.Constrains.constraint constraints.now) cart chart.old chart.new }
{
    chart.index.fill(floor);
    let mut marks = Marks {
        index: &chart.index,
        shut: &mut chart.shut,
        closed: &mut chart.closed,
        places: floor.places(),
    };
    for constraint in constraints {
        marks.add(constraint.constraint(), cart);
    }
}

ghost use Rattle.charts.specs.Charts.{Blank};

use crate::chart::Chart;
use crate::index::Index;
use crate::ticks::Ticks;

impl Chart {
    // A chart with nothing shut, and nothing closed.
    pub fn blank() -> Chart
        ensures { Blank result }
    {
        Chart {
            index: Index::blank(),
            shut: [false; 8320],
            closed: [Ticks::none(); 1024],
        }
    }
}

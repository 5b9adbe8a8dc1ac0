ghost use Rattle.std.specs.Prelude.{ℕ, List};
ghost use Rattle.prices.specs.Lines.{Lines, LineRead};

use costs::CostKind;
use digits::ReadFault;

// Costs that stand in price lists, one on a line.
pub trait Priced: CostKind {
    // How a cost is written on its line.
    ghost line: { Self → List ℕ };

    // What is of that form, but for a number above the most.
    ghost large: { List ℕ → Type 0 };

    // The cost that a line says; the line is given without its newline.
    fn read_line(bytes: &[u8]) -> Result<Self, ReadFault>
        ensures { LineRead line large bytes.now result };

    ghost lines: { Lines line large };
}

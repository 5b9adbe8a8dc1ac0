ghost use Rattle.std.specs.Prelude.{◌≤◌};

mod entering;

// A quotation before it is sealed: its horizon, and how many carts are entered in the lent cart rows.
#[derive(Drop)]
pub struct Draft {
    horizon: u8,
    carts: u8,
    ghost some_tick: { 1 ≤ horizon },
    ghost few_ticks: { horizon ≤ 64 },
    ghost few_carts: { carts ≤ 6 },
}

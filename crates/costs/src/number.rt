ghost use Rattle.std.specs.Prelude.{◌≡◌, ℕ, decimal};
ghost use Rattle.costs.specs.Texts.{Texts};

use crate::digits::{decimal_len_within, write_decimal};
use crate::text::Text;

// A cost that a number stands for: its text is that number in base ten.
pub trait Number: Copy {
    ghost number: { Self → ℕ };

    fn number(self) -> u64
        ensures { result ≡ number self };

    ghost texts: { Texts (λ c. decimal (number c)) };
}

impl<N: Number> Text for N {
    ghost text = { λ c. decimal (N.number c) };

    ghost texts = { N.Number.texts };

    fn text_len(&self, room: usize) -> Option<usize> {
        decimal_len_within(self.number(), room)
    }

    fn write_text(&self, out: &mut [u8]) -> Option<usize> {
        write_decimal(self.number(), out)
    }
}

ghost use Rattle.std.specs.Prelude.{Some};
ghost use Rattle.offer_pages.specs.Texts.{places_text};

use std::fmt;

// The line of an offer's places.
#[derive(Clone, Copy)]
pub struct Places<'a>(pub &'a [u8]);

impl fmt::Display for Places<'_> {
    ghost output = { λ places. Some (places_text places.0.now) };

    fn fmt<W: fmt::Write>(&self, f: &mut fmt::Formatter<W>) -> fmt::Result {
        write!(f, "QP")?;
        for place in self.0 {
            write!(f, " {place}")?;
        }
        writeln!(f)
    }
}

ghost use Rattle.std.specs.Prelude.{◌≡◌, Some};
ghost use Rattle.offer_pages.specs.Faults.{fault_numbers, fault_text};
ghost use Rattle.pages.specs.declared.stop.Stop.TheVariants.{Refused};

use pages::Stop;
use sites::SiteRefusal;
use std::fmt;

// Why a site has no page of offers: the first check that fails.
#[derive(Clone, Copy)]
pub enum Fault {
    // the site is not read
    Unread(SiteRefusal),
    NoCart,
    // a cart's start or goal is no place of the floor
    OffFloor,
    // the tariff has not 1 to 255 lines, or lacks the line of a move
    NoLine,
    // a cart has above 2,048 labels
    ManyLabels,
}

impl Fault {
    // The refusal's number, the line that is not read, the number of the refusal that it carries, and that one's row; 0 where there is none.
    fn numbers(self) -> [u16; 4]
        ensures { result ≡ fault_numbers self }
    {
        match self {
            Fault::Unread(refusal) => refusal.numbers(),
            Fault::NoCart => [8, 0, 0, 0],
            Fault::OffFloor => [9, 0, 0, 0],
            Fault::NoLine => [10, 0, 0, 0],
            Fault::ManyLabels => [14, 0, 0, 0],
        }
    }
}

impl From<Fault> for Stop<Fault> {
    ghost from_gives = { λ fault stop. stop ≡ Refused fault };

    fn from(fault: Fault) -> Stop<Fault> {
        Stop::Refused(fault)
    }
}

// The refusal in one line.
impl fmt::Display for Fault {
    ghost output = { λ fault. Some (fault_text fault) };

    fn fmt<W: fmt::Write>(&self, f: &mut fmt::Formatter<W>) -> fmt::Result {
        let [number, line, carried, row] = self.numbers();
        writeln!(f, "RF {number} {line} {carried} {row}")
    }
}

ghost use Rattle.sites.specs.Promises.{FormatStands, ReadingStands};
ghost use Rattle.sites.specs.declared.rooms.Rooms.{Rooms};

// A text says one site at most, and what is printed of a site says that site.
#[tactic(auto, using(crate::proofs::Promising::format_stands))]
pub fn format_stands()
    ensures { FormatStands }
{}

// Whatever tables are lent: what is accepted is just the sites of which no record is refused, each text is accepted or refused in one way
// only, and a printed site is read back.
#[tactic(auto, using(crate::proofs::Promising::reading_stands))]
pub fn reading_stands()
    ensures { (rooms : Rooms) → ReadingStands rooms }
{}

ghost use Rattle.costs.specs.Texts.{Apart};
ghost use Rattle.costs.specs.ZoneSets.{AreSets};

use crate::text::Text;

// Put a space after the texts of two different costs: neither then begins the other. No text is empty or holds a newline.
pub fn texts_apart<C: Text>()
    ensures { Apart C.Text.text }
{}

// A join of zones is their union, at most is subset, and the count in the text is how many there are.
pub fn zones_are_sets()
    ensures { AreSets }
{}

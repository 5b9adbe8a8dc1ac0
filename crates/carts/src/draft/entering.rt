ghost use Rattle.std.specs.Prelude.{◌≡◌, cond, take, length, Ok, Err, MatchResult, nat_lt};
ghost use Rattle.carts.specs.declared.draft_refusal.DraftRefusal.TheVariants.{NoPlace};
ghost use Rattle.carts.specs.Drafts.{Started, Admitted, Entered, start_among, goal_among};

use crate::cart::Cart;
use crate::draft::Draft;
use crate::draft_refusal::DraftRefusal;

const MOST_TICKS: u16 = 64;

const MOST_CARTS: usize = 6;

const LAST_PLACE: u8 = 127;

// The place with a number, if any floor can have it.
fn place(number: u16) -> Result<u8, DraftRefusal>
    ensures { result ≡ cond (nat_lt 127 number) (Err NoPlace) (Ok number) }
{
    match u8::try_from(number) {
        Ok(place) if place <= LAST_PLACE => Ok(place),
        _ => Err(DraftRefusal::NoPlace),
    }
}

// Whether a cart starts at a place.
fn starts_at(carts: &[Cart], place: u8) -> bool
    ensures { result ≡ start_among place carts.now }
{
    carts.iter().any(|cart| cart.start == place)
}

// Whether a cart is to go to a place.
fn goes_to(carts: &[Cart], place: u8) -> bool
    ensures { result ≡ goal_among place carts.now }
{
    carts.iter().any(|cart| cart.goal == place)
}

impl Draft {
    // A draft without carts.
    pub fn start(horizon: u16) -> Result<Draft, DraftRefusal>
        ensures { Started horizon result }
    {
        if !(1..=MOST_TICKS).contains(&horizon) {
            return Err(DraftRefusal::BadHorizon);
        }
        Ok(Draft {
            horizon: horizon as u8,
            carts: 0,
        })
    }

    pub fn horizon(&self) -> u8
        ensures { result ≡ self.now.horizon }
    {
        self.horizon
    }

    // How many carts are entered.
    pub fn carts(&self) -> u8
        ensures { result ≡ self.now.carts }
    {
        self.carts // no more than six
    }

    // Enters a cart in the first row that is not in use, or gives the draft back with all rows as they were.
    // It takes the draft and gives it back, and no `&mut`, as callers know it: its signature is settled.
    pub fn add_cart(
        mut self,
        rows: &mut [Cart],
        start: u16,
        goal: u16,
    ) -> Result<Draft, (Draft, DraftRefusal)>
        ensures { Entered self rows.old start goal rows.new result }
    {
        // A `match`, and no `?`: the draft goes into either answer.
        match self.admit(rows, start, goal) {
            Ok(cart) => {
                rows[usize::from(self.carts)] = cart;
                self.carts += 1;
                Ok(self)
            }
            Err(refusal) => Err((self, refusal)),
        }
    }

    // The cart that is to be entered, unless it is refused.
    fn admit(&self, rows: &[Cart], start: u16, goal: u16) -> Result<Cart, DraftRefusal>
        ensures { Admitted (take self.now.carts rows.now) (length rows.now) start goal result }
    {
        let row = usize::from(self.carts);
        if row >= MOST_CARTS || row >= rows.len() {
            return Err(DraftRefusal::NoRow);
        }
        let entered = &rows[..row];
        let start = place(start)?;
        let goal = place(goal)?;
        if starts_at(entered, start) {
            return Err(DraftRefusal::StartTaken);
        }
        if goes_to(entered, goal) {
            return Err(DraftRefusal::GoalTaken);
        }
        Ok(Cart { start, goal })
    }
}

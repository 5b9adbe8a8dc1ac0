ghost use Rattle.std.specs.Prelude.{◌≡◌};
ghost use Rattle.carts.specs.Drafts.{draft_refusal_number};

// Why a draft is not started, or a cart is not entered.
#[derive(Clone, Copy, PartialEq, Eq, Debug)]
pub enum DraftRefusal {
    // the horizon is not 1 to 64
    BadHorizon = 1,
    // six carts are entered, or no row is left
    NoRow = 2,
    // the start or the goal is above 127
    NoPlace = 3,
    // a cart starts there
    StartTaken = 4,
    // a cart is to go there
    GoalTaken = 5,
}

impl DraftRefusal {
    pub fn number(self) -> u16
        ensures { result ≡ draft_refusal_number self }
    {
        self as u16
    }
}

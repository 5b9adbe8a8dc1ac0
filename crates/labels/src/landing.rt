// Where the labels that arrive stand: those at the goal from tick `first` on, from which the cart may stand there to the horizon.
#[derive(Clone, Copy)]
pub struct Landing {
    pub first: u8,
    pub horizon: u8,
    pub goal: u8,
    pub places: u8,
}

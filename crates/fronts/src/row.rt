// A cost, with a tag that moves with it.
#[derive(Clone, Copy)]
pub struct Row<C> {
    pub cost: C,
    pub tag: u16,
}

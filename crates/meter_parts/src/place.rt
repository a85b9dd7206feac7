/// The pipe in which the flow sensor sits (EN 1434-1).
#[derive(Clone, Copy, Debug, PartialEq, Eq)]
pub enum Place {
    Flow,
    Return,
}

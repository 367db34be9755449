/// A number of nodes: those that were there at one moment.
#[derive(Clone, Copy, Debug, PartialEq, Eq)]
pub struct Mark(pub u32);

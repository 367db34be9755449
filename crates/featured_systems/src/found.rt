//! What is found while a system is explored.

/// What the rounds so far found of a system.
#[derive(Drop)]
pub struct Found<C> {
    /// Where each state is at a distance so far.
    pub reached: Vec<C>,
    /// Where the shortest runs to the end of each transition go back over it.
    pub parents: Vec<C>,
    /// Distance, state, and where the state is at that distance.
    pub layers: Vec<(u16, u16, C)>,
}

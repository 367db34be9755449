//! What an exploration finds.

use doc_tree::Row;

/// A system as it is in all products at once. States and transitions have their numbers in the system.
#[derive(Drop)]
pub struct Explored<C> {
    /// For each state, where the element is there and a run ends in the state.
    pub reached: Row<C>,
    /// For each transition, where its end is at a distance above 0 and it is the first present transition into it from a state that is nearer by
    /// one.
    pub parents: Row<C>,
    /// Distance, state, and where the state is at that distance, by distance, then state; each holds at some world.
    pub layers: Row<(u16, u16, C)>,
    /// For each transition, where the element is there and the transition is present.
    pub steps: Row<C>,
}

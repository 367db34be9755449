//! Why a list of transitions is no run.

/// The first reason why transitions from a state are no run in a product. Steps are counted from 0.
#[derive(Clone, Copy, Debug, PartialEq, Eq)]
pub enum ReplayFault {
    /// The state that it starts from isn't initial.
    NotInitial,
    /// The transition at that step doesn't leave the state in which the one before it ends.
    NotJoined(u32),
    /// The product doesn't have the transition at that step.
    NotPresent(u32),
}

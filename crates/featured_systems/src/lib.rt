//! Featured transition systems, explored in all products at once.
//!
//! A featured transition system (Classen et al.) is a transition system whose transitions carry presence conditions; its projection on a product
//! keeps all states and exactly the transitions whose condition the product meets. [`explore`] gives, for every world at once, which
//! transitions are present, which states are reached and at which distance, and over which transitions the shortest runs go back. At each
//! world these are what `meaning` defines over the projection: `IsExplored` of `specs/Exploring.antt`.
//!
//! Stands on typed models (`annotated_model`) and on the laws of conditions (`worlds`), over which it is generic.
#![tactic(auto)]

mod entering;
mod explored;
mod exploring;
mod found;
mod listing;
mod lists;
mod steps;

pub use explored::Explored;
pub use exploring::explore;

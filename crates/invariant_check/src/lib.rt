//! Checks of featured transition systems, and a plain checker of their results.
//!
//! A check asks of a system that no reachable state satisfies an expression over labels, or that no reachable state is a deadlock.
//! [`check`] makes a finding of an explored system: where, under a condition, the check is supported and where it is refuted, in which states the
//! runs of refuted checks end, and the least world where it is refuted with the run there. What a finding promises for all products stands in
//! `specs/Findings.antt`.
//!
//! [`accepts`] decides in one product, without any condition, whether a set of states is an invariant that shows the check supported there,
//! as `meaning` defines it over the projection of the system (`is_closed`).
//!
//! Stands on explorations (`featured_systems`) and on the laws of conditions (`worlds`), over which findings are told.
#![tactic(auto)]

mod accepting;
mod checking;
mod data;
mod nearest;
mod running;
mod targets;
mod violating;
mod violation;

pub use accepting::accepts;
pub use checking::check;
pub use data::{Finding, Property, Run};
pub use running::run_at;

//! Lifting: the case of argument templates for all products of a line at once.
//!
//! [`instantiate`] gives one case whose nodes carry the conditions under which they are there. At each world it is left with the instance of
//! the templates on that world's own model (`IsLiftedInstance` of `specs/LiftedInstances.antt`). It is generic over the algebra of
//! conditions, and lists no worlds.
//!
//! Stands on typed models (`annotated_model`), queries (`path_queries`), `templates` and the laws of conditions (`worlds`).
#![tactic(auto)]

mod growing;
mod instance;
mod keys;
mod lift;
mod stop;
mod texts;

pub use instance::instantiate;
pub use stop::LiftStop;

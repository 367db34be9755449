//! Typed models of a product line: types with inheritance, link kinds, labels, elements, links and featured transition systems.
//!
//! [`Model::read`] gives the model that a bundle document holds, or the first rule that its parts break.
#![tactic(auto)]

mod ancestry;
mod attributes;
mod condition;
mod data;
mod elements;
mod fault;
mod kinds;
mod known;
mod labels;
mod links;
mod model;
mod names;
mod new_texts;
mod owners;
mod read;
mod states;
mod systems;
mod texts;
mod transitions;
mod types;

pub use data::{Element, Link, LinkKind, State, System, Transition, TypeDef};
pub use fault::ModelStop;
pub use model::Model;

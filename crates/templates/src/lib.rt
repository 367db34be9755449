//! Argument templates of a bundle: goals, strategies, solutions and what annotates them, over queries.
//!
//! [`Templates::read`] gives the templates that a bundle document holds over its model, or the first rule that its parts `templates`, `params`
//! and `nodes` break. Texts are read into their words and holes, and queries by the crate `path_queries`.
#![tactic(auto)]

mod checks;
mod data;
mod fault;
mod holes;
mod kinds;
mod lengths;
mod listed;
mod members;
mod names;
mod node_form;
mod nodes;
mod params;
mod queries;
mod read;
mod reader;
mod scopes;
mod support;
mod texts;
mod uses;
mod words;

pub use data::{Check, Piece, TKind, TNode, Template};
pub use fault::TemplateStop;
pub use read::Templates;

//! Path queries over a product line: which tuples of elements answer, and in which products.
//!
//! A query asks for elements of given types that are joined, or not joined, by walks along links, and whose attributes have given values
//! (regular path queries with negation and attribute tests). [`Query::parse`] reads one from its text, or tells the first fault. [`answers`]
//! gives every tuple that answers somewhere, with the condition of exactly the worlds where it does, for all products at once; [`some`] is
//! the condition that there is an answer. At each world the answers are those that `meaning` defines over the model of that world.
//!
//! Stands on typed models (`annotated_model`) and on the laws of conditions (`worlds`), over which it is generic.
#![tactic(auto)]

mod data;
mod fault;
mod parse;
mod parse_constraint;
mod parse_names;
mod parse_path;
mod parse_variables;
mod token;
mod token_at;
mod token_text;

pub use data::{AnswerRows, Constraint, Path, Query};
pub use fault::QueryStop;

mod answering;
mod matrix;
mod presence;
mod walks;

pub use answering::{answers, some};
pub use presence::{element_when, link_when};

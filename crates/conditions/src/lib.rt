//! Conditions over the features of a product line as reduced ordered decision diagrams (Bryant, Graph-Based Algorithms for Boolean
//! Function Manipulation, 1986).
//!
//! [`Diagrams`] keeps the laws of `worlds::Worlds`, with an exact limit: a call that makes a condition is refused only where at its end the
//! pool holds as many nodes as the limit and lacks a node of that condition's diagram, and it adds no node of any other diagram. So the
//! refusals depend on the calls and the limit alone, and not on the machine.
//!
//! A [`Table`] has conditions as rows. [`Diagrams::export`] gives the rows below conditions in the order of a walk over them, and
//! [`read_table`] reads rows from a document, or tells the first row that breaks a rule of tables with the first rule that it breaks.
//!
//! One recursion, `Applier::apply`, makes every condition: it answers a `Question` from those about its two halves. The layer stands on the
//! nodes of `node_pool` and the laws of `worlds`.
#![tactic(auto)]

mod applier;
mod diagrams;
mod export;
mod lines;
mod question;
mod reading;
mod store;
mod table;

pub use diagrams::{Cond, Diagrams};
pub use node_pool::{NoMemory, NodeNo};
pub use reading::{TableStop, first_bad_row, read_table};
pub use table::Table;

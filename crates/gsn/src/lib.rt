//! Plain assurance cases of the Goal Structuring Notation (GSN Community Standard Version 3): nodes, their relations, and the statuses that
//! follow from the verdicts of the solutions.
//!
//! Contracts see a [`Case`] by one function, `case_of` of `specs/View.antt`, as the case of the definitions in `meaning`. [`statuses`] gives each
//! node the status that the definitions give it, in time linear in the nodes and relations.
//!
//! Stands on `doc_tree` for texts and lists, and on `meaning` for the words of its contracts.
#![tactic(auto)]

mod case;
mod credit;
mod incoming;
mod marks;
mod needs;
mod status;
mod tables;

pub use case::{CNode, CRel, Case, NodeKind, RelKind};
pub use status::{Status3, statuses};

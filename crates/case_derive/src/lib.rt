//! The case of one product, derived from a case for all products of a line.
//!
//! [`cut`] leaves of a case that was read the nodes and relations that are there at one world, [`plain`] those of a case whose conditions are
//! their truth at one world. Both are the cut of the definitions of `meaning`, without the keys of its nodes. Each identifier's truth is
//! computed once, so the time is linear in the case, its table and the texts that are written.
//!
//! Stands on `lifted_case` and `conditions` for cases and their tables, on `gsn` for plain cases, and on `meaning` for the words of its contracts.
#![tactic(auto)]

mod cutting;
mod nodes;
mod places;
mod relations;
mod texts;
mod truth;
mod truths;

pub use cutting::{CutStop, cut, plain};

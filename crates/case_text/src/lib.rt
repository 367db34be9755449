//! The text of an assurance case for one product.
//!
//! [`text`] writes a plain case of the Goal Structuring Notation with the identifiers and the statuses of its nodes. Its bytes are the text that
//! the definitions of `meaning` give to the case that contracts see, and the time is linear in them and in the case.
//!
//! Stands on `gsn` for cases and statuses, on `cond_text` for lists of names, and on `meaning` for the words of its contracts.
#![tactic(auto)]

mod identifiers;
mod lines;
mod nodes;
mod put;
mod targets;
mod words;
mod written;

pub use written::text;

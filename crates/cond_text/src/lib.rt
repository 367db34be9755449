//! Expressions over named truth values, and lists of names.
//!
//! An [`Expr`] speaks of names by their numbers in a list of names ([`Names`]). [`parse`] reads a text exactly where the grammar of expressions
//! has it, and else tells its first fault; [`print()`] writes a text that reads back as the same expression; [`truth`] is the truth of an
//! expression where each name stands for a truth value.
//!
//! Grammar, reading, faults and printing are said by the definitions of `meaning` in `Expressions` and `ExpressionFaults`. `specs/View.antt` ties
//! the type of this crate to them, and `specs/Stops.antt` and `specs/Readings.antt` have the words of its contracts.
#![tactic(auto)]

mod expr;
mod lexeme;
mod names;
mod parser;
mod printer;
mod scan;
mod token;
mod word;

pub use expr::{Expr, truth};
pub use names::{NameStop, Names};
pub use parser::parse;
pub use printer::{NoMemory, print};
pub use scan::ExprStop;
pub use word::{are_a_name, is_name};

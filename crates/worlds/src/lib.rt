//! Conditions over the worlds of a product line.
//!
//! A *world* gives each feature a truth value, and a *condition* holds at some of the worlds. [`Worlds`] is what a value that makes, joins
//! and decides conditions offers. Its clauses are the laws of an algebra of sets of worlds, with counts of the work done and of the work
//! refused. Code that is generic over it is proved once, from these laws alone, and then holds of one product ([`One`]) and of a whole line.
//!
//! A call over `Worlds` keeps what was live, and answers [`NodeLimit`] only where a call that makes a condition was refused: see
//! `specs/Algebra.antt` for the words `Kept`, `Worked`, `HoldsWhere` and `IsRefusal`, and `proofs/` for what follows from them.
//! [`condition`] makes the condition of an expression. The layer stands on expressions (`cond_text`) and their meaning.
#![tactic(auto)]

mod from_expression;
mod mark;
mod one;
mod stops;
mod worlds;

pub use from_expression::condition;
pub use mark::Mark;
pub use one::One;
pub use stops::{NodeLimit, QStop};
pub use worlds::Worlds;

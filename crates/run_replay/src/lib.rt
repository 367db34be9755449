//! Runs of a featured transition system, replayed in one product.
//!
//! [`replay`] takes the transitions of a run one after another in the product of a world, and answers the state in which the run ends, or the
//! first reason why it is none: what `meaning` defines as `replay_answer`. It takes no memory and knows no conditions over worlds.
//!
//! Stands on typed models (`annotated_model`) and the truth of expressions (`cond_text`).
#![tactic(auto)]

mod fault;
mod replaying;

pub use fault::ReplayFault;
pub use replaying::replay;

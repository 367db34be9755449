//! Feature models: the line of a product family, its valid configurations, and the configurations that users write down.
//!
//! A [`Line`] is a tree of features (Kang et al., Feature-Oriented Domain Analysis) with constraints. [`Line::read`] reads it from a bundle
//! document, or tells the first rule that is broken there. [`Line::valid`] tells whether a world, a truth value for each feature, is a product of
//! the line, and else the first rule that it breaks. [`Line::expr`] is an expression that is true at exactly the valid worlds. [`read_config`] reads
//! the world that a configuration names, or tells why there is none.
//!
//! What a line, its products, the rules of documents and configurations are is said by the definitions of `meaning` in `Features`, `LineRules` and
//! `Configurations`. `line_view` of `specs/Contents.antt` ties the type of this crate to them, and `specs/Breaks.antt` has the order of the rules
//! that a world breaks. It stands on `doc_tree` for documents and on `cond_text` for expressions and lists of names.
#![tactic(auto)]

mod condition;
mod config;
mod features;
mod known;
mod line;
mod read;
mod rules;
mod validity;

pub use config::{ConfigStop, read_config};
pub use line::Line;
pub use read::LineStop;
pub use validity::LineRule;

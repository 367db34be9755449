//! The value that a document of a case says.

pub mod lists;
pub mod nodes;
pub mod systems;

//! The nodes of reduced ordered binary decision diagrams, in one region of fixed size (Bryant, Graph-Based Algorithms
//! for Boolean Function Manipulation, 1986).
//!
//! A node is a triple of a variable and two smaller numbers: the function where the variable is false, and the one
//! where it is true. A unique table keeps each triple once, and no triple has equal children. So two numbers have the
//! same function exactly where they are equal, which is the contract of `Pool::same`.
//!
//! All memory is taken in `Pool::new`: a table has its whole room from then on, and fills it as it grows. So `Pool::make` answers `Full` exactly where the limit is reached, whatever the
//! machine has. The layer stands on the definitions in `meaning`: what a world and a function are.
#![tactic(auto)]

mod chaining;
mod hash;
mod memory;
mod node;
mod pool;

pub use hash::{first_mask, next_mask};
pub use memory::{NoMemory, append, empty_with_room};
pub use node::NodeNo;
pub use pool::{Full, MAX_NODES, MAX_VARS, Pool};

//! The tests of `annotated_model` and `feature_model` that need their calls: each call once with memory at hand, and what no output of the program
//! shows.
//!
//! What an output shows stands in the rows of `rows`, as each broken rule with its place, each limit and the products of lines.
#![tactic(auto)]

#[cfg(test)]
mod configurations;
#[cfg(test)]
mod lines;
#[cfg(test)]
mod models;
#[cfg(test)]
mod products;

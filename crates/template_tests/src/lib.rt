//! The tests of `path_queries` and `templates`: that their calls answer with memory at hand, and what the program's output does not show.
//!
//! They stand apart, so that a new test proves the libraries no second time. What the output shows stands in the rows of the crate `rows`.
#![tactic(auto)]

#[cfg(test)]
mod answer_tests;
#[cfg(test)]
mod read_tests;
#[cfg(test)]
mod sample;

//! The tests of `doc_tree`, `cond_text`, `gsn` and `case_text`: what no output of the program shows.
//!
//! They stand apart, so that a new test proves the libraries no second time.
#![tactic(auto)]

#[cfg(test)]
mod documents;
#[cfg(test)]
mod expressions;
#[cfg(test)]
mod open_cases;

//! The tests of `lifted_case` and `case_derive`: what no output of the program shows.
//!
//! They stand apart, so that a new test proves the libraries no second time.
#![tactic(auto)]

#[cfg(test)]
mod cases;
#[cfg(test)]
mod cutting;
#[cfg(test)]
mod reading;
#[cfg(test)]
mod writing;

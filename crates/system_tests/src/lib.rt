//! The tests of `featured_systems`, `invariant_check` and `run_replay`: what is found of small systems at one world and over diagrams.
//!
//! What is asked is asked over any `worlds::Worlds`, and a test calls that with one world or with diagrams.
#![tactic(auto)]

#[cfg(test)]
mod checking;
#[cfg(test)]
mod exploring;
#[cfg(test)]
mod samples;

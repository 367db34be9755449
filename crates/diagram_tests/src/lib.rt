//! The tests of conditions and what they are made of: nodes (`node_pool`), one world (`worlds`), and diagrams with their tables (`conditions`).
//!
//! What is asked of diagrams is asked over any `worlds::Worlds`, and a test calls that with diagrams.
#![tactic(auto)]

#[cfg(test)]
mod functions;
#[cfg(test)]
mod limits;
#[cfg(test)]
mod one_world;
#[cfg(test)]
mod operators;
#[cfg(test)]
mod pairs;
#[cfg(test)]
mod pools;
#[cfg(test)]
mod queens;
#[cfg(test)]
mod reading;
#[cfg(test)]
mod restricted;
#[cfg(test)]
mod tables;
#[cfg(test)]
mod texts;

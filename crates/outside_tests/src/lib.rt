//! The tests of `outside`: files in memory and real ones that are read whole or not, and sinks that take all bytes or a prefix.
#![tactic(auto)]

#[cfg(test)]
mod reads;
#[cfg(test)]
mod real_files;
#[cfg(test)]
mod writes;

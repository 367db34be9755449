//! The tests of the top call that need what a row of data cannot say: reads and puts that fail in the middle of an answer, files past their
//! limits, and real files and streams.
#![tactic(auto)]

#[cfg(test)]
mod cut_answers;
#[cfg(test)]
mod in_memory;
#[cfg(test)]
mod long_files;
#[cfg(test)]
mod real_files;

//! Where bytes come from and where they go: files that are read piece by piece, sinks that take
//! bytes piece by piece, in memory and real.
//!
//! The promise of the layer: [`read_whole`] gives the whole file or says why not, [`write_whole`]
//! gives a sink all bytes or a prefix of them, and a failure is answered only where a count of the
//! shelf or the sink rose. Nothing is assumed of a real file or stream: what a shelf holds and what
//! a sink got is known only where it tells. [`MemShelf`] and [`MemSink`] tell all and fail on
//! demand; [`FileShelf`] and [`StreamSink`] tell nothing of content.
//!
//! The words of counts (`counted`, `Rose`, `RoseBy`, `NoFewer`, `appended`) come from `meaning`.
#![tactic(auto)]

mod mem_shelf;
mod mem_sink;
mod real;
mod shelf;
mod whole;

pub use mem_shelf::MemShelf;
pub use mem_sink::MemSink;
pub use real::{FileShelf, StreamSink};
pub use shelf::{Failed, NoMemory, Shelf, Sink};
pub use whole::{ReadStop, read_whole, write_whole};

//! Documents: what the bytes of a bundle, a run or a case hold, as texts, whole numbers, truth
//! values, lists and tables.
//!
//! `from_json` and `from_toml` give the document that the bytes are by the definitions of
//! `meaning`, and refuse exactly the bytes that are none. `to_json` gives the compact text of a
//! document, which reads back as that document, also with a newline after it. Contracts see a
//! [`Doc`] by one function, `document` of `specs/View.antt`, and the accessors answer what
//! `meaning` says of it.
//!
//! Stands on `serde_json` and `toml`, and on `meaning` for the words of its contracts.
#![tactic(auto)]

mod doc;
mod fault;
mod members;
mod read;
mod read_toml;
mod row;
mod word;
mod write;

pub use doc::Doc;
pub use fault::{BundleFault, Part};
pub use read::{DocStop, from_json};
pub use read_toml::from_toml;
pub use row::Row;
pub use word::{NoMemory, Word};

//! Case files: the documents that hold one assurance case for all products of a line.
//!
//! [`write_case`] gives the bytes of a case over diagrams, or says that they are more than a case file
//! may have. They are the bytes that the definitions of `meaning` give to a document that is written
//! from the case (`IsWrittenFrom` of `specs/CaseWritten.antt`): with an identifier in place of each
//! condition, the same one for the same function, and a table whose rows stand in the order of a
//! walk. They read back as that document, which the case's contents and the truth of its conditions
//! determine: `determined` of `proofs/CaseDetermined.antt`.
//!
//! [`read_case`] gives the case that bytes are, whoever wrote them, or the first of the rules of
//! case files that they break, with its place. Both are what `read_case` of the definitions says of
//! the bytes: `case_document_of_read` of `specs/CaseView.antt` ties a [`ReadCase`] to the case
//! document, and `fault_view` a [`CaseFault`] to the fault. What is read keeps the rules
//! `KeepsCaseRules` of `specs/CaseRules.antt`: its conditions are identifiers of its table, its
//! relations join its nodes, and its size is within the limits.
//!
//! The rules are checked one after another, in the order in which their faults come, and each pass
//! goes over the document once: so the time is linear in its size, whatever it holds.
//!
//! Stands on `doc_tree`, `cond_text`, `conditions` and `gsn`, and on `meaning` for the words of its
//! contracts.
#![tactic(auto)]

mod case_bytes;
mod case_findings;
mod case_ids;
mod case_members;
mod case_nodes;
mod case_systems;
mod case_walk;
mod faults;
mod lifted;
mod members;
mod read;
mod stop;
mod tables;
mod values;
mod words;

pub use case_bytes::{CaseStop, write_case};
pub use lifted::{CaseFault, LCheck, LFinding, LNode, LPart, LRel, LSystem, Lifted, ReadCase};
pub use read::read_case;
pub use stop::ReadCaseStop;

//! The identifiers of the nodes.

ghost use Rattle.std.specs.Prelude.{◌≡◌, ◌<◌, ◌+◌, ◌++◌, IfOk, map, length, decimal, string_bytes};
ghost use Rattle.std.specs.List.{range_with_len};
ghost use Rattle.meaning.specs.Cases as plain;
ghost use Rattle.gsn.specs.View.{case_of, kind_of};
ghost use Rattle.case_text.specs.Parts.{numbered_identifiers};

use crate::words::{kind_number, letters};
use doc_tree::NoMemory;
use gsn::{Case, NodeKind};
use std::alloc::Global;

fn identifier(alloc: Global, kind: NodeKind, number: usize) -> Result<String, NoMemory>
    ensures { IfOk result (λ s. string_bytes s ≡ plain.letters (kind_of kind) ++ decimal number) }
{
    let letters = letters(kind);
    Ok(format!(in alloc; "{letters}{number}")?)
}

/// The identifier of each node, numbered from 1 among the nodes of its kind. One count for each kind goes along.
pub fn identifiers(alloc: Global, case: &Case) -> Result<Vec<String>, NoMemory>
    ensures { IfOk result (λ v. map string_bytes v.items ≡ numbered_identifiers (case_of case.now)) }
{
    let mut all = Vec::new(alloc);
    let mut counts: [usize; 6] = [0; 6];
    'nodes: for node in case.nodes.list() {
        let kind = kind_number(node.kind);
        counts[kind] += 1;
        all.push(identifier(alloc, node.kind, counts[kind])?)?;
    }
    Ok(all)
}

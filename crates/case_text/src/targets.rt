//! The targets of each node.

ghost use Rattle.std.specs.Prelude.{◌≡◌, ℕ, ◌<◌, ◌++◌, ◌∷◌, [], IfOk, OnOk, map, length, vec_len, slice_index_or, slice_set, All};
ghost use Rattle.gsn.specs.View.{relation_kind_of};
ghost use Rattle.case_text.specs.Parts.{same_relation, targets_of};

use doc_tree::NoMemory;
use gsn::{CRel, RelKind};
use std::alloc::Global;

fn no_targets(alloc: Global, nodes: usize) -> Result<Vec<Vec<u32>>, NoMemory>
    ensures sized { IfOk result (λ v. vec_len v ≡ nodes) }
    ensures empty { IfOk result (λ v. (x : ℕ) → slice_index_or (map (λ list. list.items) v.items) x [] ≡ []) }
{
    let mut lists = Vec::new(alloc);
    'nodes: for _node in 0..nodes {
        lists.push(Vec::new(alloc))?;
    }
    Ok(lists)
}

fn add(lists: &mut Vec<Vec<u32>>, source: usize, target: u32) -> Result<(), NoMemory>
    requires { source < vec_len lists.old }
    ensures sized { vec_len lists.new ≡ vec_len lists.old }
    ensures added { OnOk result (map (λ list. list.items) lists.new.items
        ≡ slice_set (map (λ list. list.items) lists.old.items) source (slice_index_or (map (λ list. list.items) lists.old.items) source [] ++ target ∷ [])) }
{
    lists[source].push(target)?;
    Ok(())
}

fn is_of(kind: RelKind, wanted: RelKind) -> bool
    ensures { result ≡ same_relation (relation_kind_of wanted) (relation_kind_of kind) }
{
    match wanted {
        RelKind::SupportedBy => match kind {
            RelKind::SupportedBy => true,
            RelKind::InContextOf => false,
        },
        RelKind::InContextOf => match kind {
            RelKind::SupportedBy => false,
            RelKind::InContextOf => true,
        },
    }
}

/// The targets of the relations of this kind from each node, in the order of the relations.
pub fn targets(
    alloc: Global,
    nodes: usize,
    relations: &[CRel],
    kind: RelKind,
) -> Result<Vec<Vec<u32>>, NoMemory>
    requires { All (λ r. (r.from < nodes) × (r.to < nodes)) relations.now }
    ensures sized { IfOk result (λ v. vec_len v ≡ nodes) }
    ensures targets { IfOk result (λ v. (x : ℕ) → slice_index_or (map (λ list. list.items) v.items) x []
        ≡ targets_of (relation_kind_of kind) x relations.now) }
{
    let mut lists = no_targets(alloc, nodes)?;
    'relations: for relation in relations {
        if is_of(relation.kind, kind) {
            add(&mut lists, relation.from as usize, relation.to)?;
        }
    }
    Ok(lists)
}

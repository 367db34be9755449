//! The text of a case.

ghost use Rattle.std.specs.Prelude.{◌≡◌, IfOk, length};
ghost use Rattle.meaning.specs.Cases.{text_of_case};
ghost use Rattle.gsn.specs.View.{case_of, EndsInRange};

use crate::identifiers::identifiers;
use crate::lines::put_heading;
use crate::nodes::put_node;
use crate::targets::targets;
use cond_text::Names;
use doc_tree::NoMemory;
use gsn::{Case, RelKind, statuses};
use std::alloc::Global;

/// The text of a case: its title, the features of its product, and then each node.
///
/// A node's first line has its identifier, its kind, the status of a goal, strategy or solution, and `undeveloped` where it is. The second has
/// its text. Then, where there are any, `in context of` and `supported by` name the targets in the order of the relations. An identifier is `G`,
/// `S`, `Sn`, `C`, `A` or `J` and the node's number among the nodes of its kind, from 1.
///
/// `world` has one truth value for each feature.
pub fn text(
    alloc: Global,
    case: &Case,
    title: &str,
    features: &Names,
    world: &[bool],
) -> Result<Vec<u8>, NoMemory>
    requires ends { EndsInRange case.now }
    requires world { length world.now ≡ length features.now }
    ensures { IfOk result (λ v. v.items ≡ text_of_case (case_of case.now) title.now features.now world.now) }
{
    let nodes = case.nodes.list();
    let relations = case.relations.list();
    let statuses = statuses(alloc, case)?;
    let identifiers = identifiers(alloc, case)?;
    let contexts = targets(alloc, nodes.len(), relations, RelKind::InContextOf)?;
    let supports = targets(alloc, nodes.len(), relations, RelKind::SupportedBy)?;
    let mut out = Vec::new(alloc);
    put_heading(&mut out, title, features, world)?;
    'nodes: for (place, node) in nodes.iter().enumerate() {
        let status = statuses.list()[place];
        put_node(
            &mut out,
            place,
            node,
            status,
            &identifiers,
            &contexts[place],
            &supports[place],
        )?;
    }
    Ok(out)
}

//! The statuses of the nodes of a case.

ghost use Rattle.std.specs.Prelude.{◌≡◌, IfOk, map, length};
ghost use Rattle.meaning.specs.Cases as plain;
ghost use Rattle.gsn.specs.View.{case_of, status_view, EndsInRange};
ghost use Rattle.gsn.specs.Incoming.{IsIncoming, targets};
ghost use Rattle.gsn.specs.LeastStatuses.{AreLeastStatuses};

use crate::case::Case;
use crate::incoming::{Incoming, chains};
use crate::marks::least_marks;
use crate::needs::{all_supports, arguing, judged, one_support, places};
use doc_tree::{NoMemory, Row};
use std::alloc::Global;

/// What is known of a node: the evidence supports it, or refutes it, or neither.
#[derive(Clone, Copy, PartialEq, Eq, Debug)]
pub enum Status3 {
    Supported,
    Refuted,
    Open,
}

fn refuted(alloc: Global, case: &Case, incoming: &Incoming) -> Result<Vec<bool>, NoMemory>
    requires ends { EndsInRange case.now }
    requires incoming { IsIncoming (length case.now.nodes) (targets case.now.relations) (length case.now.relations) incoming.now.last.items incoming.now.before.items }
    ensures { IfOk result (λ v. v.items ≡ plain.refuted_nodes (case_of case.now)) }
{
    let nodes = case.nodes.list();
    let arguing = arguing(alloc, nodes)?;
    let needed = one_support(alloc, &arguing)?;
    let judged = judged(alloc, nodes, false)?;
    let start = places(alloc, &judged)?;
    least_marks(alloc, case.relations.list(), incoming, needed, start)
}

fn supported(
    alloc: Global,
    case: &Case,
    incoming: &Incoming,
    refuted: &[bool],
) -> Result<Vec<bool>, NoMemory>
    requires ends { EndsInRange case.now }
    requires incoming { IsIncoming (length case.now.nodes) (targets case.now.relations) (length case.now.relations) incoming.now.last.items incoming.now.before.items }
    requires refuted { refuted.now ≡ plain.refuted_nodes (case_of case.now) }
    ensures { IfOk result (λ v. v.items ≡ plain.supported_nodes (case_of case.now)) }
{
    let nodes = case.nodes.list();
    let relations = case.relations.list();
    let arguing = arguing(alloc, nodes)?;
    let needed = all_supports(alloc, relations, &arguing, refuted)?;
    let judged = judged(alloc, nodes, true)?;
    let start = places(alloc, &judged)?;
    least_marks(alloc, relations, incoming, needed, start)
}

fn status(refuted: bool, supported: bool) -> Status3
    ensures { status_view result ≡ plain.status_of refuted supported }
{
    if refuted {
        Status3::Refuted
    } else if supported {
        Status3::Supported
    } else {
        Status3::Open
    }
}

/// The status of each node of the case, in the order of its nodes.
///
/// A solution has its verdict, and is open where it has none. A goal or strategy is refuted where a node that supports it is refuted; it is
/// supported where some node supports it, all that do are supported and it isn't refuted. Both are the least such sets, so a circle of goals
/// supports none of them. All other nodes are open. The time is linear in the nodes and relations.
pub fn statuses(alloc: Global, case: &Case) -> Result<Row<Status3>, NoMemory>
    requires { EndsInRange case.now }
    ensures statuses { IfOk result (λ row. map status_view row ≡ plain.statuses (case_of case.now)) }
    ensures least { IfOk result (λ row. AreLeastStatuses (case_of case.now) (map status_view row)) }
{
    let incoming = chains(alloc, case.nodes.list().len(), case.relations.list())?;
    let refuted = refuted(alloc, case, &incoming)?;
    let supported = supported(alloc, case, &incoming, &refuted)?;
    let mut all = Vec::new(alloc);
    'nodes: for k in 0..refuted.len() {
        all.push(status(refuted[k], supported[k]))?;
    }
    Ok(Row::of(all))
}

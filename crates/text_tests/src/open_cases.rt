//! A case that no case file holds: with open solutions, verdicts at other nodes and an undeveloped context.

ghost use Rattle.std.specs.Prelude.{◌≡◌, true};
ghost use Rattle.gsn.specs.View.{EndsInRange};

use NodeKind::{Context, Goal, Solution, Strategy};
use RelKind::{InContextOf, SupportedBy};
use Status3::{Open, Refuted, Supported};
use case_text::text;
use cond_text::Names;
use doc_tree::{NoMemory, Row, Word};
use gsn::{CNode, CRel, Case, NodeKind, RelKind, Status3, statuses};
use std::alloc::Global;
use std::test::Fail;

fn ends_in_range(case: &Case) -> bool
    ensures { result ≡ true → EndsInRange case.now }
{
    let nodes = case.nodes.list().len();
    'relations: for relation in case.relations.list() {
        if relation.from as usize >= nodes || relation.to as usize >= nodes {
            return false;
        }
    }
    true
}

fn node(
    alloc: Global,
    kind: NodeKind,
    undeveloped: bool,
    verdict: Option<bool>,
) -> Result<CNode, NoMemory> {
    let text = Word::of(alloc, "A node")?;
    Ok(CNode {
        kind,
        text,
        undeveloped,
        verdict,
    })
}

fn relation(from: u32, to: u32, kind: RelKind) -> CRel {
    CRel { from, to, kind }
}

/// A goal with an open solution, one with a refuted solution beside the open one, and one over nodes whose verdicts count for nothing.
fn case(alloc: Global) -> Result<Case, NoMemory> {
    let first = node(alloc, Goal, false, None)?;
    let second = node(alloc, Strategy, true, None)?;
    let third = node(alloc, Goal, false, Some(true))?;
    let context = node(alloc, Context, true, Some(false))?;
    let held = node(alloc, Solution, false, Some(true))?;
    let failed = node(alloc, Solution, false, Some(false))?;
    let open = node(alloc, Solution, false, None)?;
    Ok(Case {
        nodes: Row::of(vec![in alloc; first, second, third, context, held, failed, open]?),
        relations: Row::of(vec![in alloc;
            relation(0, 4, SupportedBy),
            relation(0, 6, SupportedBy),
            relation(1, 6, SupportedBy),
            relation(1, 5, SupportedBy),
            relation(2, 3, SupportedBy),
            relation(0, 3, InContextOf),
        ]?),
    })
}

const TEXT: &str = "case Open\nwith\n\
    G1 goal open\n  A node\n  in context of C1\n  supported by Sn1 Sn3\n\
    S1 strategy refuted undeveloped\n  A node\n  supported by Sn3 Sn2\n\
    G2 goal open\n  A node\n  supported by C1\n\
    C1 context undeveloped\n  A node\n\
    Sn1 solution supported\n  A node\n\
    Sn2 solution refuted\n  A node\n\
    Sn3 solution open\n  A node\n";

#[test]
fn a_solution_without_a_verdict_is_open(rt: HostRuntime) -> Result<(), Fail> {
    let case = case(rt.alloc())?;
    if !ends_in_range(&case) {
        return Err(Fail::new("no case"));
    }
    let statuses = statuses(rt.alloc(), &case)?;
    let wanted = [Open, Refuted, Open, Open, Supported, Refuted, Open];
    assert_eq!(rt; statuses.list(), wanted.as_slice());
    let text = text(rt.alloc(), &case, "Open", &Names::new(rt.alloc()), &[])?;
    assert_eq!(rt; text.as_slice(), TEXT.as_bytes());
    Ok(())
}

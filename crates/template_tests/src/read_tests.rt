//! A whole query and whole templates, as they are read.

ghost use Rattle.std.specs.Prelude.{◌≤◌, length, IfOk};

use crate::sample::{BUNDLE, model};
use doc_tree::{Word, from_json};
use path_queries::{Constraint, Query, QueryStop};
use std::alloc::Global;
use std::process::Abort;
use std::test::Fail;
use templates::{TNode, Template, Templates};

/// Constraints of every form, over x of type N and y of type M in scope and two new variables.
const QUERY: &str =
    "n: N, m: M with x[k]y, x [^l] y, x [k/l/k] y, x [k|l|k] y, x [k|l/k] y, x [(k|l)/k] y, x [k/l+] y, x [(k/l)+] y, x [k++] y, x [^k+] y, x [((k))] y, n [k] m, not m [l] x, x.a = 'text', y.b != '', m.a='it, [is] (so)'";

/// The same, a constraint on a line.
const CONSTRAINTS: &str = r#"Walk { from: 0, path: Link(0), to: 1, negated: false }
Walk { from: 0, path: Back(1), to: 1, negated: false }
Walk { from: 0, path: Then(Then(Link(0), Link(1)), Link(0)), to: 1, negated: false }
Walk { from: 0, path: Either(Either(Link(0), Link(1)), Link(0)), to: 1, negated: false }
Walk { from: 0, path: Either(Link(0), Then(Link(1), Link(0))), to: 1, negated: false }
Walk { from: 0, path: Then(Either(Link(0), Link(1)), Link(0)), to: 1, negated: false }
Walk { from: 0, path: Then(Link(0), Chain(Link(1))), to: 1, negated: false }
Walk { from: 0, path: Chain(Then(Link(0), Link(1))), to: 1, negated: false }
Walk { from: 0, path: Chain(Chain(Link(0))), to: 1, negated: false }
Walk { from: 0, path: Chain(Back(0)), to: 1, negated: false }
Walk { from: 0, path: Link(0), to: 1, negated: false }
Walk { from: 2, path: Link(0), to: 3, negated: false }
Walk { from: 3, path: Link(1), to: 0, negated: true }
Attr { var: 0, attr: 0, text: Word { text: "text" }, equal: true }
Attr { var: 1, attr: 1, text: Word { text: "" }, equal: false }
Attr { var: 3, attr: 0, text: Word { text: "it, [is] (so)" }, equal: true }"#;

/// The name and the parameters of the first template.
const USED_NAMES: &str = r#"Word { text: "T" } Row { items: [(Word { text: "x" }, 0)] }"#;

/// The same of the template that uses it.
const TOP_NAMES: &str = r#"Word { text: "Top" } Row { items: [] }"#;

/// The nodes of the first template, a node on a line.
const USED: &str =
    r#"TNode { id: Word { text: "g" }, kind: Node(Goal), under: None, text: Row { items: [NameOf(0), Words(Word { text: " is {" }), Attr(0, 0), Words(Word { text: "}" })] }, each: None, guard: None, check: None, args: Row { items: [] }, undeveloped: false }
TNode { id: Word { text: "c" }, kind: Node(Context), under: Some(0), text: Row { items: [Words(Word { text: "c" })] }, each: None, guard: None, check: None, args: Row { items: [] }, undeveloped: false }
TNode { id: Word { text: "s" }, kind: Node(Strategy), under: Some(0), text: Row { items: [Words(Word { text: "over " }), Count] }, each: Some(Query { vars: Row { items: [2] }, constraints: Row { items: [Walk { from: 0, path: Link(0), to: 1, negated: false }, Attr { var: 1, attr: 0, text: Word { text: "v" }, equal: true }] } }), guard: Some(Query { vars: Row { items: [0] }, constraints: Row { items: [] } }), check: None, args: Row { items: [] }, undeveloped: false }
TNode { id: Word { text: "h" }, kind: Node(Goal), under: Some(2), text: Row { items: [Attr(1, 0)] }, each: None, guard: None, check: None, args: Row { items: [] }, undeveloped: false }
TNode { id: Word { text: "e" }, kind: Node(Solution), under: Some(3), text: Row { items: [] }, each: None, guard: None, check: Some(Never(1, Name(0))), args: Row { items: [] }, undeveloped: false }
TNode { id: Word { text: "d" }, kind: Node(Solution), under: Some(3), text: Row { items: [Words(Word { text: "d" })] }, each: None, guard: None, check: Some(NoDeadlock(1)), args: Row { items: [] }, undeveloped: false }
TNode { id: Word { text: "n" }, kind: Node(Solution), under: Some(3), text: Row { items: [Words(Word { text: "n" })] }, each: None, guard: None, check: Some(NoAnswer(Query { vars: Row { items: [2] }, constraints: Row { items: [Walk { from: 0, path: Link(0), to: 2, negated: false }] } })), args: Row { items: [] }, undeveloped: false }
TNode { id: Word { text: "o" }, kind: Node(Solution), under: Some(3), text: Row { items: [Words(Word { text: "o" })] }, each: None, guard: None, check: Some(SomeAnswer(Query { vars: Row { items: [] }, constraints: Row { items: [Walk { from: 0, path: Link(0), to: 1, negated: false }] } })), args: Row { items: [] }, undeveloped: false }"#;

/// The nodes of the template that uses it.
const TOP: &str =
    r#"TNode { id: Word { text: "g" }, kind: Node(Goal), under: None, text: Row { items: [Words(Word { text: "top" })] }, each: None, guard: None, check: None, args: Row { items: [] }, undeveloped: false }
TNode { id: Word { text: "t" }, kind: Node(Strategy), under: Some(0), text: Row { items: [Words(Word { text: "t" })] }, each: Some(Query { vars: Row { items: [0, 1] }, constraints: Row { items: [] } }), guard: None, check: None, args: Row { items: [] }, undeveloped: false }
TNode { id: Word { text: "u" }, kind: Uses(0), under: Some(1), text: Row { items: [] }, each: None, guard: None, check: None, args: Row { items: [1] }, undeveloped: false }
TNode { id: Word { text: "l" }, kind: Node(Goal), under: Some(1), text: Row { items: [Words(Word { text: "later" })] }, each: None, guard: None, check: None, args: Row { items: [] }, undeveloped: true }"#;

/// The variables x of type N and y of type M.
fn scope(alloc: Global) -> Result<Vec<(Word, u16)>, Fail>
    ensures { IfOk result (λ scope. length scope.items ≤ 2) }
{
    let mut scope = Vec::new(alloc);
    scope.push((Word::of(alloc, "x")?, 0))?;
    scope.push((Word::of(alloc, "y")?, 1))?;
    Ok(scope)
}

/// What the query over the model is read as.
fn query(alloc: Global) -> Result<Query, Fail> {
    let model = model(alloc)?;
    let scope = scope(alloc)?;
    Ok(Query::parse(alloc, QUERY, &model, &scope)?)
}

/// Each constraint is the one of its line.
fn are_constraints(
    rt: &impl Abort,
    alloc: Global,
    constraints: &[Constraint],
    lines: &str,
) -> Result<(), Fail> {
    assert_eq!(rt; constraints.len(), lines.lines().count());
    for (constraint, line) in constraints.iter().zip(lines.lines()) {
        let shown = format!(in alloc; "{constraint:?}")?;
        assert_eq!(rt; shown.as_str(), line);
    }
    Ok(())
}

#[test]
fn a_query_is_read_as_it_stands(rt: HostRuntime) -> Result<(), Fail> {
    let query = query(rt.alloc())?;
    assert!(rt; query.vars.list() == [0, 1].as_slice());
    are_constraints(&rt, rt.alloc(), query.constraints.list(), CONSTRAINTS)
}

/// Why the text is no query.
fn stop(alloc: Global, text: &str) -> Result<Option<QueryStop>, Fail> {
    let model = model(alloc)?;
    let scope = scope(alloc)?;
    match Query::parse(alloc, text, &model, &scope) {
        Ok(_) => Ok(None),
        Err(stop) => Ok(Some(stop)),
    }
}

#[test]
fn a_fault_has_its_kind(rt: HostRuntime) -> Result<(), Fail> {
    let syntax = stop(rt.alloc(), "n N")?;
    let unknown = stop(rt.alloc(), "n: P")?;
    let repeated = stop(rt.alloc(), "x: N")?;
    let many = stop(rt.alloc(), "a:N,b:N,c:N,d:N")?;
    assert!(rt; syntax == Some(QueryStop::Syntax(2)));
    assert!(rt; unknown == Some(QueryStop::UnknownName(3)));
    assert!(rt; repeated == Some(QueryStop::Repeated(0)));
    assert!(rt; many == Some(QueryStop::TooMany(12)));
    Ok(())
}

/// Each node is the one of its line.
fn are_nodes(rt: &impl Abort, alloc: Global, nodes: &[TNode], lines: &str) -> Result<(), Fail> {
    assert_eq!(rt; nodes.len(), lines.lines().count());
    for (node, line) in nodes.iter().zip(lines.lines()) {
        let shown = format!(in alloc; "{node:?}")?;
        assert_eq!(rt; shown.as_str(), line);
    }
    Ok(())
}

/// The template has the name and the parameters of the line.
fn is_named(rt: &impl Abort, alloc: Global, template: &Template, line: &str) -> Result<(), Fail> {
    let Template { name, params, .. } = template;
    let shown = format!(in alloc; "{name:?} {params:?}")?;
    assert_eq!(rt; shown.as_str(), line);
    Ok(())
}

/// The templates of the bundle.
fn templates(alloc: Global) -> Result<Templates, Fail> {
    let bundle = from_json(alloc, BUNDLE.as_bytes())?;
    let model = model(alloc)?;
    Ok(Templates::read(alloc, &bundle, &model)?)
}

#[test]
fn templates_are_read_as_they_stand(rt: HostRuntime) -> Result<(), Fail> {
    let templates = templates(rt.alloc())?;
    let list = templates.list();
    assert_eq!(rt; list.len(), 2);
    is_named(&rt, rt.alloc(), &list[0], USED_NAMES)?;
    is_named(&rt, rt.alloc(), &list[1], TOP_NAMES)?;
    are_nodes(&rt, rt.alloc(), list[0].nodes.list(), USED)?;
    are_nodes(&rt, rt.alloc(), list[1].nodes.list(), TOP)
}

//! Lines: that they are read, and how large their conditions are.

use cond_text::Expr;
use doc_tree::{BundleFault, Doc, Part, from_json};
use feature_model::{Line, LineStop};
use std::alloc::{AllocError, Global};
use std::test::Fail;

/// The line of a bundle document.
fn boxed(alloc: Global, doc: &Doc) -> Result<Box<Line>, Fail> {
    let line = Line::read(alloc, doc)?;
    Ok(Box::new(alloc, line)?)
}

/// The line of a bundle.
pub fn read(alloc: Global, bundle: &str) -> Result<Box<Line>, Fail> {
    let doc = from_json(alloc, bundle.as_bytes())?;
    boxed(alloc, &doc)
}

/// The condition of a line.
fn condition(alloc: Global, line: &Line) -> Result<Box<Expr>, Fail> {
    let condition = line.expr(alloc)?;
    Ok(Box::new(alloc, condition)?)
}

/// Why a document has no line, and `None` where it has one.
fn stop_of(alloc: Global, doc: &Doc) -> Option<LineStop> {
    match Line::read(alloc, doc) {
        Ok(_) => None,
        Err(stop) => Some(stop),
    }
}

#[test]
fn what_is_no_table_has_no_line(rt: HostRuntime) -> Result<(), Fail> {
    let fault = BundleFault {
        rule: 2,
        part: Part::Features,
        item: 0,
        sub: 0,
        at: 0,
    };
    for text in ["7", "[]", "{}", "{\"line\":7}", "{\"line\":[]}"] {
        let doc = from_json(rt.alloc(), text.as_bytes())?;
        assert!(rt;
            stop_of(rt.alloc(), &doc) == Some(LineStop::Fault(fault)),
            "{text}"
        );
    }
    Ok(())
}

/// A line of so many features of one kind under a root.
fn wide(alloc: Global, kind: &str, children: u16) -> Result<String, AllocError> {
    let mut text = String::from_str(alloc, r#"{"line":{"features":[{"name":"R"}"#)?;
    for no in 0..children {
        let next = format!(in alloc; r#",{{"name":"F{no}","parent":"R","kind":"{kind}"}}"#)?;
        text.push_str(next.as_str())?;
    }
    text.push_str("]}}")?;
    Ok(text)
}

/// The nodes of an expression.
fn nodes(e: &Expr) -> u32 {
    match e {
        Expr::Top | Expr::Bottom | Expr::Name(_) => 1,
        Expr::Not(a) => nodes(a).saturating_add(1),
        Expr::Both(a, b) | Expr::Either(a, b) | Expr::Implies(a, b) | Expr::Same(a, b) => {
            nodes(a).saturating_add(nodes(b)).saturating_add(1)
        }
    }
}

/// How many features a line has, and how many nodes its condition.
fn sizes(alloc: Global, kind: &str, children: u16) -> Result<(u16, u32), Fail> {
    let text = wide(alloc, kind, children)?;
    let line = read(alloc, text.as_str())?;
    let condition = condition(alloc, &line)?;
    Ok((line.count(), nodes(&condition)))
}

#[test]
fn a_condition_is_linear_in_the_features(rt: HostRuntime) -> Result<(), Fail> {
    let (all, ors) = sizes(rt.alloc(), "or", 255)?;
    let (_, alternatives) = sizes(rt.alloc(), "alternative", 255)?;
    let (ten, few) = sizes(rt.alloc(), "alternative", 9)?;
    assert!(rt; (all, ten) == (256, 10));
    assert!(rt; ors <= 10_241 && alternatives <= 10_241 && few <= 401);
    Ok(())
}

//! The queries of a node.

ghost use Rattle.std.specs.Prelude.{◌≡◌, ◌≤◌, [], true, None, codes, length, option_map, IfOk, IfErr};
ghost use Rattle.meaning.specs.BundlePlaces.{broken_at, member_within};
ghost use Rattle.meaning.specs.TemplateTexts.{query_at};
ghost use Rattle.meaning.specs.TemplateRules as rules;
ghost use Rattle.doc_tree.specs.View.{document};
ghost use Rattle.templates.specs.Faults.{IsFirst, faults_here};
ghost use Rattle.templates.specs.NodeRules.{seeing};
ghost use Rattle.templates.specs.QueryReads.{place_at_member, check_place, Told, value_of, fault_place, has_new, parsed, AreRead};

use crate::fault::{Place, TemplateStop};
use crate::node_form::check_table;
use annotated_model::Model;
use doc_tree::{Doc, NoMemory, Row, Word};
use path_queries::{Query, QueryStop};
use std::alloc::Global;

/// What a member tells that is read as a query.
#[derive(Drop)]
pub enum QueryRead {
    /// There is no such member.
    Absent,
    /// The byte of the first fault.
    Fault(u32),
    /// The new variables with the numbers of their types, and the query.
    Parsed(Row<(Word, u16)>, Query),
}

/// The queries of a check, each with its new variables.
#[derive(Drop)]
pub struct CheckQueries {
    /// That of `none`.
    pub absent: Option<(Row<(Word, u16)>, Query)>,
    /// That of `some`.
    pub demanded: Option<(Row<(Word, u16)>, Query)>,
}

/// The queries of a node, each with its new variables.
#[derive(Drop)]
pub struct NodeQueries {
    pub each: Option<(Row<(Word, u16)>, Query)>,
    pub guard: Option<(Row<(Word, u16)>, Query)>,
    pub check: CheckQueries,
}

/// Reads a member as a query over the variables in scope.
pub fn read_member(
    alloc: Global,
    model: &Model,
    scope: &[(Word, u16)],
    name: &str,
    item: &Doc,
) -> Result<QueryRead, NoMemory>
    requires few { length scope.now ≤ 65532 }
    requires fits { member_within 4096 name.now (document item.now) ≡ true }
    ensures { IfOk result (Told model.now scope.now name.now (document item.now)) }
{
    match item.text_member(name) {
        Some(text) => match Query::parse_with_scope(alloc, text, model, scope) {
            Ok((new, query)) => Ok(QueryRead::Parsed(new, query)),
            Err(QueryStop::Syntax(at)) => Ok(QueryRead::Fault(at)),
            Err(QueryStop::UnknownName(at)) => Ok(QueryRead::Fault(at)),
            Err(QueryStop::Repeated(at)) => Ok(QueryRead::Fault(at)),
            Err(QueryStop::TooMany(at)) => Ok(QueryRead::Fault(at)),
            Err(QueryStop::NoMemory) => Err(NoMemory),
        },
        None => Ok(QueryRead::Absent),
    }
}

/// Whether the query has a new variable, if there is one without a fault.
pub fn has_variables(each: &QueryRead) -> bool
    ensures { result ≡ has_new each.now }
{
    match each {
        QueryRead::Parsed(new, _) => new.list().len() != 0,
        _ => true,
    }
}

/// The query, if there is one; a fault breaks a rule at the place.
fn settle(place: Place, read: QueryRead) -> Result<Option<(Row<(Word, u16)>, Query)>, TemplateStop>
    ensures value { IfOk result (λ query. query ≡ value_of read) }
    ensures none { IfOk result (λ query. fault_place read ≡ None) }
    ensures fault { IfErr result (IsFirst (faults_here place (broken_at 26 (fault_place read)))) }
{
    match read {
        QueryRead::Absent => Ok(None),
        QueryRead::Fault(at) => Err(place.broken_at(26, at)),
        QueryRead::Parsed(new, query) => Ok(Some((new, query))),
    }
}

/// The query of a member, if it is there.
fn read_query(
    alloc: Global,
    place: Place,
    model: &Model,
    scope: &[(Word, u16)],
    name: &str,
    item: &Doc,
) -> Result<Option<(Row<(Word, u16)>, Query)>, TemplateStop>
    requires few { length scope.now ≤ 65532 }
    requires fits { member_within 4096 name.now (document item.now) ≡ true }
    ensures value { IfOk result (λ query. option_map parsed query ≡ query_at model.now scope.now name.now (document item.now)) }
    ensures none { IfOk result (λ query. place_at_member model.now scope.now name.now (document item.now) ≡ None) }
    ensures fault { IfErr result (IsFirst (faults_here place (broken_at 26 (place_at_member model.now scope.now name.now (document item.now))))) }
{
    let read = read_member(alloc, model, scope, name, item)?;
    settle(place, read)
}

/// The queries of the check of a node, if it has them.
fn read_check_queries(
    alloc: Global,
    place: Place,
    model: &Model,
    scope: &[(Word, u16)],
    node: &Doc,
) -> Result<CheckQueries, TemplateStop>
    requires few { length scope.now ≤ 65532 }
    requires absent_fits { member_within 4096 (codes "none") (rules.check_in (document node.now)) ≡ true }
    requires demanded_fits { member_within 4096 (codes "some") (rules.check_in (document node.now)) ≡ true }
    ensures absent { IfOk result (λ q. option_map parsed q.absent ≡ query_at model.now scope.now (codes "none") (rules.check_in (document node.now))) }
    ensures demanded { IfOk result (λ q. option_map parsed q.demanded ≡ query_at model.now scope.now (codes "some") (rules.check_in (document node.now))) }
    ensures none { IfOk result (λ q. check_place model.now scope.now (document node.now) ≡ None) }
    ensures fault { IfErr result (IsFirst (faults_here place (broken_at 26 (check_place model.now scope.now (document node.now))))) }
{
    match check_table(node) {
        Some(check) => {
            let absent = read_query(alloc, place, model, scope, "none", check)?;
            let demanded = read_query(alloc, place, model, scope, "some", check)?;
            Ok(CheckQueries { absent, demanded })
        }
        None => Ok(CheckQueries {
            absent: None,
            demanded: None,
        }),
    }
}

/// The queries of a node, of which `each` was read before.
pub fn read_queries(
    alloc: Global,
    place: Place,
    model: &Model,
    scope: &[(Word, u16)],
    each: QueryRead,
    node: &Doc,
) -> Result<NodeQueries, TemplateStop>
    requires few { length scope.now ≤ 65532 }
    requires fits { rules.node_texts_fit (document node.now) ≡ true }
    requires told { Told model.now scope.now (codes "each") (document node.now) each }
    ensures read { IfOk result (AreRead model.now scope.now (document node.now)) }
    ensures none { IfOk result (λ queries. rules.place_if_any (rules.first_query_fault (seeing model.now [] scope.now) (0, document node.now)) ≡ None) }
    ensures fault { IfErr result (IsFirst (faults_here place
        (broken_at 26 (rules.place_if_any (rules.first_query_fault (seeing model.now [] scope.now) (0, document node.now)))))) }
{
    let each = settle(place, each)?;
    let guard = read_query(alloc, place, model, scope, "guard", node)?;
    let check = read_check_queries(alloc, place, model, scope, node)?;
    Ok(NodeQueries { each, guard, check })
}

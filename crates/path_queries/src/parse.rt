//! A query from its text.

ghost use Rattle.std.specs.Prelude.{◌≡◌, ◌++◌, ◌≤◌, length, map, true, Some, None, option_map, IfOk, IfErr};
ghost use Rattle.meaning.specs.QueryTexts.{query_of};
ghost use Rattle.meaning.specs.QueryFaults.{query_fault};
ghost use Rattle.path_queries.specs.View.{query, constraint};
ghost use Rattle.path_queries.specs.Stops.{Tells};
ghost use Rattle.path_queries.specs.VariableReading.{begins_conditions, ReadsConditions, ConditionsStop};

use crate::data::{Constraint, Query};
use crate::fault::QueryStop;
use crate::parse_constraint::{is_word_at, parse_constraints};
use crate::parse_variables::parse_new;
use crate::token::Tokens;
use crate::token_text::tokens_of;
use annotated_model::Model;
use doc_tree::{NoMemory, Row, Word};
use std::alloc::Global;

/// The constraints of a query from the place behind its new variables on.
fn parse_conditions(
    alloc: Global,
    model: &Model,
    scope: &[(Word, u16)],
    new: &[(Word, u16)],
    tokens: &Tokens,
    at: usize,
) -> Result<Vec<Constraint>, QueryStop>
    requires kinds { length model.now.kinds ≤ 65536 }
    requires scope { length scope.now ≤ 65532 }
    requires new { length new.now ≤ 3 }
    requires short { at ≤ 12 }
    requires begins { begins_conditions tokens.now at ≡ true }
    ensures reads { IfOk result (λ list. ReadsConditions model.now (scope.now ++ new.now) tokens.now at (map constraint list.items)) }
    ensures stop { IfErr result (ConditionsStop model.now (scope.now ++ new.now) tokens.now at) }
{
    if is_word_at(tokens, at, "with") {
        parse_constraints(alloc, model, scope, new, tokens, at + 1)
    } else {
        Ok(Vec::new(alloc))
    }
}

/// The types of variables.
fn types_of(alloc: Global, variables: &[(Word, u16)]) -> Result<Row<u16>, NoMemory>
    ensures { IfOk result (λ types. types ≡ map (λ v. v.1) variables.now) }
{
    let mut types = Vec::new(alloc);
    'variables: for variable in variables {
        types.push(variable.1)?;
    }
    Ok(Row::of(types))
}

impl Query {
    /// The query that a text is, over a model and the variables in scope with their types.
    ///
    /// The first fault of the text is the one that is told. A token's fault is `TooMany` where it is the 257th, the name of a fourth new
    /// variable or the first token of a 17th constraint, else `Syntax`, else `UnknownName`, else `Repeated`.
    pub fn parse(
        alloc: Global,
        text: &str,
        model: &Model,
        scope: &[(Word, u16)],
    ) -> Result<Query, QueryStop>
        requires few { length scope.now ≤ 65532 }
        ensures no_fault { IfOk result (λ q. query_fault model.now scope.now text.now ≡ None) }
        ensures query { IfOk result (λ q. option_map (λ read. read.1) (query_of model.now scope.now text.now) ≡ Some (query q)) }
        ensures fault { IfErr result (λ stop. Tells stop (query_fault model.now scope.now text.now)) }
    {
        let (_, read) = Query::parse_with_scope(alloc, text, model, scope)?;
        Ok(read)
    }

    /// The query that a text is, as [`Query::parse`] gives it, and the new variables with their types.
    pub fn parse_with_scope(
        alloc: Global,
        text: &str,
        model: &Model,
        scope: &[(Word, u16)],
    ) -> Result<(Row<(Word, u16)>, Query), QueryStop>
        requires few { length scope.now ≤ 65532 }
        ensures no_fault { IfOk result (λ read. query_fault model.now scope.now text.now ≡ None) }
        ensures query { IfOk result (λ read. query_of model.now scope.now text.now ≡ Some (read.0, query read.1)) }
        ensures fault { IfErr result (λ stop. Tells stop (query_fault model.now scope.now text.now)) }
    {
        // A model has at most 256 types and link kinds, so that each has a number of 16 bits.
        let _types = model.types();
        let tokens = tokens_of(alloc, text)?;
        let (new, next) = parse_new(alloc, model, scope, &tokens)?;
        let constraints = parse_conditions(alloc, model, scope, &new, &tokens, next)?;
        let vars = types_of(alloc, &new)?;
        let read = Query {
            vars,
            constraints: Row::of(constraints),
        };
        Ok((Row::of(new), read))
    }
}

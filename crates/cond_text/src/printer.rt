//! Expressions as text.

ghost use Rattle.std.specs.Prelude.{◌≡◌, ◌++◌, ◌≤◌, length, IfOk, OnOk, string_bytes};
ghost use Rattle.meaning.specs.Expressions.{name_bound, in_place};
ghost use Rattle.meaning.specs.Expressions as meaning;
ghost use Rattle.cond_text.specs.View.{expression};
ghost use Rattle.cond_text.specs.Printing.{AllPlaced};
ghost use Rattle.cond_text.specs.Readings.{ReadsBack};

use crate::expr::Expr;
use crate::names::Names;
use std::alloc::{AllocError, Global};

/// There is no memory.
#[derive(Clone, Copy, Debug, PartialEq, Eq)]
pub struct NoMemory;

impl From<AllocError> for NoMemory {
    fn from(_: AllocError) -> NoMemory {
        NoMemory
    }
}

/// How strongly the outermost operator binds.
fn strength(e: &Expr) -> u8
    ensures { result ≡ meaning.strength (expression e.now) }
{
    match e {
        Expr::Same(_, _) => 1,
        Expr::Implies(_, _) => 2,
        Expr::Either(_, _) => 3,
        Expr::Both(_, _) => 4,
        Expr::Not(_) => 5,
        Expr::Top | Expr::Bottom | Expr::Name(_) => 6,
    }
}

/// Appends an operand, in parentheses where it binds weaker than its place needs.
#[cycle(appending)]
fn append_operand(e: &Expr, needs: u8, names: &Names, text: &mut String) -> Result<(), AllocError>
    requires { name_bound (expression e.now) ≤ length names.now }
    ensures text { OnOk result (string_bytes text.new ≡ string_bytes text.old ++ in_place (expression e.now) needs (meaning.print names.now (expression e.now))) }
    ensures placed { OnOk result (AllPlaced names.now (expression e.now)) }
{
    if strength(e) >= needs {
        return append(e, names, text);
    }
    text.push_str("(")?;
    append(e, names, text)?;
    text.push_str(")")
}

/// Appends an expression.
#[cycle(appending)]
fn append(e: &Expr, names: &Names, text: &mut String) -> Result<(), AllocError>
    requires { name_bound (expression e.now) ≤ length names.now }
    ensures text { OnOk result (string_bytes text.new ≡ string_bytes text.old ++ meaning.print names.now (expression e.now)) }
    ensures placed { OnOk result (AllPlaced names.now (expression e.now)) }
{
    match e {
        Expr::Top => text.push_str("true"),
        Expr::Bottom => text.push_str("false"),
        Expr::Name(number) => text.push_str(names.name(*number)),
        Expr::Not(a) => {
            text.push_str("!")?;
            append_operand(a, 5, names, text)
        }
        Expr::Both(a, b) => {
            append_operand(a, 4, names, text)?;
            text.push_str(" & ")?;
            append_operand(b, 5, names, text)
        }
        Expr::Either(a, b) => {
            append_operand(a, 3, names, text)?;
            text.push_str(" | ")?;
            append_operand(b, 4, names, text)
        }
        Expr::Implies(a, b) => {
            append_operand(a, 3, names, text)?;
            text.push_str(" => ")?;
            append_operand(b, 2, names, text)
        }
        Expr::Same(a, b) => {
            append_operand(a, 1, names, text)?;
            text.push_str(" <=> ")?;
            append_operand(b, 2, names, text)
        }
    }
}

/// The text of an expression, with parentheses where an operand binds weaker than its place needs.
///
/// `parse` reads it back where each of `names` is a name and the text has at most 512 tokens.
pub fn print(alloc: Global, e: &Expr, names: &Names) -> Result<String, NoMemory>
    requires { name_bound (expression e.now) ≤ length names.now }
    ensures text { IfOk result (λ text. string_bytes text ≡ meaning.print names.now (expression e.now)) }
    ensures reads_back { IfOk result (λ text. ReadsBack names.now (string_bytes text) (expression e.now)) }
{
    let mut text = String::new(alloc);
    append(e, names, &mut text)?;
    Ok(text)
}

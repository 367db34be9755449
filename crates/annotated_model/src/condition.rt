//! The condition of an element, a link or a transition.

ghost use Rattle.std.specs.Prelude.{◌≡◌, [], IfOk, IfErr, codes, true};
ghost use Rattle.meaning.specs.BundlePlaces.{member_within};
ghost use Rattle.meaning.specs.LineRules.{expression_rules};
ghost use Rattle.meaning.specs.Models.{condition_of};
ghost use Rattle.cond_text.specs.View.{expression};
ghost use Rattle.doc_tree.specs.View.{document};
ghost use Rattle.annotated_model.specs.Faults.{IsFirst, faults_here};

use crate::fault::{ModelStop, Place};
use cond_text::{Expr, ExprStop, Names, parse};
use doc_tree::Doc;
use std::alloc::Global;

/// The condition that an item at this place has over the features, which is true where none is given.
pub fn read_condition(
    alloc: Global,
    features: &Names,
    place: Place,
    item: &Doc,
) -> Result<Expr, ModelStop>
    requires { member_within 4096 (codes "when") (document item.now) ≡ true }
    ensures value { IfOk result (λ e. expression e ≡ condition_of features.now (document item.now)) }
    ensures none { IfOk result (λ e. expression_rules features.now (codes "when") (document item.now) ≡ []) }
    ensures fault { IfErr result (IsFirst (faults_here place (expression_rules features.now (codes "when") (document item.now)))) }
{
    match item.text_member("when") {
        Some(text) => match parse(alloc, text, features) {
            Ok(condition) => Ok(condition),
            Err(ExprStop::Syntax(at)) => Err(place.broken_at(11, at)),
            Err(ExprStop::TooMany(at)) => Err(place.broken_at(11, at)),
            Err(ExprStop::UnknownName(at)) => Err(place.broken_at(12, at)),
            Err(ExprStop::NoMemory) => Err(ModelStop::NoMemory),
        },
        None => Ok(Expr::Top),
    }
}

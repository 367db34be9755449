//! Conditions from expressions.

ghost use Rattle.std.specs.Prelude.{◌≤◌, ◌*◌, ◌||◌, not, IfOk, IfErr};
ghost use Rattle.meaning.specs.Expressions.{name_bound, size_of, truth, alike};
ghost use Rattle.cond_text.specs.View.{expression};
ghost use Rattle.worlds.specs.Algebra.{Worked, HoldsWhere, IsRefusal};

use crate::stops::NodeLimit;
use crate::worlds::Worlds;
use cond_text::Expr;

/// The condition that holds where the expression is true. At most 8 conditions are asked for per node of the expression.
///
/// The names of the expression are features of `w`.
pub fn condition<W: Worlds>(e: &Expr, w: &mut W) -> Result<W::C, NodeLimit>
    requires { name_bound (expression e.now) ≤ (W.algebra w.old).count }
    ensures worked { Worked (8 * size_of (expression e.now)) (W.algebra w.old) (W.algebra w.new) }
    ensures made { IfOk result (λ c. HoldsWhere (W.algebra w.new) c (λ x. truth (expression e.now) x)) }
    ensures refused { IfErr result (IsRefusal (W.algebra w.old) (W.algebra w.new)) }
{
    match e {
        Expr::Top => Ok(w.always()),
        Expr::Bottom => Ok(w.never()),
        Expr::Name(feature) => w.feature(*feature),
        Expr::Not(a) => {
            let a = condition(a, w)?;
            let all = w.always();
            w.without(all, a)
        }
        Expr::Both(a, b) => {
            let a = condition(a, w)?;
            let b = condition(b, w)?;
            w.both(a, b)
        }
        Expr::Either(a, b) => {
            let a = condition(a, w)?;
            let b = condition(b, w)?;
            w.either(a, b)
        }
        Expr::Implies(a, b) => {
            let a = condition(a, w)?;
            let b = condition(b, w)?;
            implies(a, b, w)
        }
        Expr::Same(a, b) => {
            let a = condition(a, w)?;
            let b = condition(b, w)?;
            equivalent(a, b, w)
        }
    }
}

/// Holds where the first doesn't hold or the second does.
fn implies<W: Worlds>(a: W::C, b: W::C, w: &mut W) -> Result<W::C, NodeLimit>
    requires a_live { (W.algebra w.old).live a }
    requires b_live { (W.algebra w.old).live b }
    ensures worked { Worked 2 (W.algebra w.old) (W.algebra w.new) }
    ensures made { IfOk result (λ c. HoldsWhere (W.algebra w.new) c (λ x. not ((W.algebra w.old).holds a x) || (W.algebra w.old).holds b x)) }
    ensures refused { IfErr result (IsRefusal (W.algebra w.old) (W.algebra w.new)) }
{
    let all = w.always();
    let not_a = w.without(all, a)?;
    w.either(not_a, b)
}

/// Holds where both or none of the two hold.
fn equivalent<W: Worlds>(a: W::C, b: W::C, w: &mut W) -> Result<W::C, NodeLimit>
    requires a_live { (W.algebra w.old).live a }
    requires b_live { (W.algebra w.old).live b }
    ensures worked { Worked 4 (W.algebra w.old) (W.algebra w.new) }
    ensures made { IfOk result (λ c. HoldsWhere (W.algebra w.new) c (λ x. alike ((W.algebra w.old).holds a x) ((W.algebra w.old).holds b x))) }
    ensures refused { IfErr result (IsRefusal (W.algebra w.old) (W.algebra w.new)) }
{
    let only_a = w.without(a, b)?;
    let only_b = w.without(b, a)?;
    let differ = w.either(only_a, only_b)?;
    let all = w.always();
    w.without(all, differ)
}

ghost use Rattle.std.specs.Prelude.{◌≡◌, ◌≤◌, length};
ghost use Rattle.meaning.specs.Expressions.{name_bound};
ghost use Rattle.meaning.specs.Expressions as meaning;
ghost use Rattle.cond_text.specs.View.{expression};

/// An expression over numbered names, as features of a line or labels of states.
/// Operators are those of propositional logic; `Same` is true where both parts have one value.
#[derive(Debug, Drop)]
pub enum Expr {
    Top,
    Bottom,
    Name(u16),
    Not(Box<Expr>),
    Both(Box<Expr>, Box<Expr>),
    Either(Box<Expr>, Box<Expr>),
    Implies(Box<Expr>, Box<Expr>),
    Same(Box<Expr>, Box<Expr>),
}

/// Whether the expression is true where name `k` stands for `world[k]`.
///
/// `world` has a truth value for each name of the expression.
pub fn truth(e: &Expr, world: &[bool]) -> bool
    requires { name_bound (expression e.now) ≤ length world.now }
    ensures { result ≡ meaning.truth (expression e.now) world.now }
{
    match e {
        Expr::Top => true,
        Expr::Bottom => false,
        Expr::Name(no) => world[usize::from(*no)],
        Expr::Not(a) => !truth(a, world),
        Expr::Both(a, b) => truth(a, world) && truth(b, world),
        Expr::Either(a, b) => truth(a, world) || truth(b, world),
        Expr::Implies(a, b) => !truth(a, world) || truth(b, world),
        Expr::Same(a, b) => truth(a, world) == truth(b, world),
    }
}

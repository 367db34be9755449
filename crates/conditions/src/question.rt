//! The functions that one recursion makes.

ghost use Rattle.std.specs.Prelude.{◌≡◌, ℕ, ◌+◌, ◌<◌, ◌≤◌, true, false, length, List, IfSome, IfNone};
ghost use Rattle.meaning.specs.Cofactors.{World};
ghost use Rattle.node_pool.specs.Nodes.{top_of, value};
ghost use Rattle.node_pool.specs.declared.node.Node.{Node};
ghost use Rattle.conditions.specs.Questions.{function_asked, first_of, IsAsked, IsSplit, IsNumberSplit};

use node_pool::{NodeNo, Pool};

/// The condition that holds nowhere.
pub const FALSE: NodeNo = NodeNo(0);

/// The condition that holds everywhere.
pub const TRUE: NodeNo = NodeNo(1);

/// A function that is asked for, in terms of numbers that are there.
#[derive(Clone, Copy, PartialEq, Eq, Debug)]
pub enum Question {
    /// The number's own function.
    Number(NodeNo),
    /// True where both are.
    Both(NodeNo, NodeNo),
    /// True where one of the two is, or both are.
    Either(NodeNo, NodeNo),
    /// True where the first is and the second isn't.
    Without(NodeNo, NodeNo),
    /// The function `high` where the variable is true, and else `low`. Both may depend on earlier variables.
    Pick { var: u16, low: NodeNo, high: NodeNo },
}

/// The number's function where the variable is false and where it is true.
pub fn split(pool: &Pool, number: NodeNo, var: u16) -> (NodeNo, NodeNo)
    requires there { number.0 < length pool.now.nodes + 2 }
    requires var { var < pool.now.vars }
    requires not_after { var ≤ top_of pool.now.vars pool.now.nodes number.0 }
    ensures { IsNumberSplit pool.now.vars pool.now.nodes number.0 var result.0.0 result.1.0 }
{
    let _used = pool.used();
    if number.0 < 2 {
        return (number, number);
    }
    let (top, low, high) = pool.triple(number);
    if top == var {
        (low, high)
    } else {
        (number, number)
    }
}

impl Question {
    /// The questions where the variable is false and where it is true.
    pub fn branches(self, pool: &Pool, var: u16) -> (Question, Question)
        requires asked { IsAsked pool.now.vars pool.now.nodes self }
        requires var { var < pool.now.vars }
        requires first { var ≡ first_of pool.now.vars pool.now.nodes self }
        ensures { IsSplit pool.now.vars pool.now.nodes self var result.0 result.1 }
    {
        match self {
            Question::Number(number) => {
                let (low, high) = split(pool, number, var);
                (Question::Number(low), Question::Number(high))
            }
            Question::Both(left, right) => {
                let (left_low, left_high) = split(pool, left, var);
                let (right_low, right_high) = split(pool, right, var);
                (
                    Question::Both(left_low, right_low),
                    Question::Both(left_high, right_high),
                )
            }
            Question::Either(left, right) => {
                let (left_low, left_high) = split(pool, left, var);
                let (right_low, right_high) = split(pool, right, var);
                (
                    Question::Either(left_low, right_low),
                    Question::Either(left_high, right_high),
                )
            }
            Question::Without(left, right) => {
                let (left_low, left_high) = split(pool, left, var);
                let (right_low, right_high) = split(pool, right, var);
                (
                    Question::Without(left_low, right_low),
                    Question::Without(left_high, right_high),
                )
            }
            Question::Pick { var: on, low, high } => {
                let (low_low, low_high) = split(pool, low, var);
                let (high_low, high_high) = split(pool, high, var);
                if on == var {
                    (Question::Number(low_low), Question::Number(high_high))
                } else {
                    (
                        Question::Pick {
                            var: on,
                            low: low_low,
                            high: high_low,
                        },
                        Question::Pick {
                            var: on,
                            low: low_high,
                            high: high_high,
                        },
                    )
                }
            }
        }
    }

    /// The answer where no node has to be looked at. Else a node has to, so the first variable is one of the pool's.
    pub fn at_once(self) -> Option<NodeNo>
        ensures function { IfSome result (λ n. (nodes : List Node) → (w : World)
            → value nodes 0 w ≡ false → value nodes 1 w ≡ true
            → value nodes n.0 w ≡ function_asked nodes self w) }
        ensures first { IfSome result (λ n. (vars : ℕ) → (nodes : List Node)
            → ((m : ℕ) → m < length nodes + 2 → top_of vars nodes m ≤ vars)
            → top_of vars nodes 0 ≡ vars → top_of vars nodes 1 ≡ vars
            → IsAsked vars nodes self → first_of vars nodes self ≤ top_of vars nodes n.0) }
        ensures there { IfSome result (λ n. (vars : ℕ) → (nodes : List Node)
            → IsAsked vars nodes self → n.0 < length nodes + 2) }
        ensures none { IfNone result ((vars : ℕ) → (nodes : List Node)
            → ((m : ℕ) → 2 ≤ m → m < length nodes + 2 → top_of vars nodes m < vars)
            → IsAsked vars nodes self → first_of vars nodes self < vars) }
    {
        match self {
            Question::Number(number) => Some(number),
            Question::Both(left, right) if left == FALSE || right == FALSE => Some(FALSE),
            Question::Both(left, right) if left == TRUE || left == right => Some(right),
            Question::Both(left, right) if right == TRUE => Some(left),
            Question::Either(left, right) if left == TRUE || right == TRUE => Some(TRUE),
            Question::Either(left, right) if left == FALSE || left == right => Some(right),
            Question::Either(left, right) if right == FALSE => Some(left),
            Question::Without(left, right) if left == FALSE || right == TRUE || left == right => {
                Some(FALSE)
            }
            Question::Without(left, right) if right == FALSE => Some(left),
            Question::Pick { low, high, .. } if low == high => Some(low),
            _ => None,
        }
    }

    /// The first variable that may matter.
    pub fn first(self, pool: &Pool) -> u16
        requires { IsAsked pool.now.vars pool.now.nodes self }
        ensures { result ≡ first_of pool.now.vars pool.now.nodes self }
    {
        match self {
            Question::Number(number) => pool.top(number),
            Question::Both(left, right)
            | Question::Either(left, right)
            | Question::Without(left, right) => pool.top(left).min(pool.top(right)),
            Question::Pick { var, low, high } => var.min(pool.top(low).min(pool.top(high))),
        }
    }
}

//! The words for the kinds of nodes, relations and checks.

ghost use Rattle.std.specs.Prelude.{◌≡◌, ℕ, List, option_map};
ghost use Rattle.gsn.specs.View.{kind_of, relation_kind_of};
ghost use Rattle.meaning.specs.CaseReading as reading;
ghost use Rattle.doc_tree.specs.View.{document};
ghost use Rattle.lifted_case.specs.ReadFaults.{check_of_word, kind_at};

use doc_tree::Doc;
use gsn::{NodeKind, RelKind};

/// What a finding checks, without its system and its expression.
#[derive(Clone, Copy, Debug, PartialEq, Eq)]
pub enum CheckWord {
    Never,
    Deadlock,
    NoAnswer,
    SomeAnswer,
}

pub fn kind_named(word: &str) -> Option<NodeKind>
    ensures { option_map kind_of result ≡ reading.kind_named word.now }
{
    match word {
        "goal" => Some(NodeKind::Goal),
        "strategy" => Some(NodeKind::Strategy),
        "solution" => Some(NodeKind::Solution),
        "context" => Some(NodeKind::Context),
        "assumption" => Some(NodeKind::Assumption),
        "justification" => Some(NodeKind::Justification),
        _ => None,
    }
}

/// The kind of a node, and a goal where its word is unknown.
pub fn kind_at(node: &Doc) -> NodeKind
    ensures { kind_of result ≡ kind_at (document node.now) }
{
    kind_named(node.text_at("kind")).unwrap_or(NodeKind::Goal)
}

pub fn relation_named(word: &str) -> Option<RelKind>
    ensures { option_map relation_kind_of result ≡ reading.relation_named word.now }
{
    match word {
        "supported" => Some(RelKind::SupportedBy),
        "context" => Some(RelKind::InContextOf),
        _ => None,
    }
}

pub fn check_named(word: &str) -> Option<CheckWord>
    ensures { (system : ℕ) (property : List ℕ) → option_map (λ w. check_of_word w system property) result ≡ reading.check_named word.now system property }
{
    match word {
        "never" => Some(CheckWord::Never),
        "deadlock" => Some(CheckWord::Deadlock),
        "none" => Some(CheckWord::NoAnswer),
        "some" => Some(CheckWord::SomeAnswer),
        _ => None,
    }
}

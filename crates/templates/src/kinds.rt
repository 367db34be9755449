//! The kinds of nodes.

ghost use Rattle.std.specs.Prelude.{◌≡◌, []};
ghost use Rattle.meaning.specs.Templates as meaning;
ghost use Rattle.meaning.specs.TemplateTexts as texts;
ghost use Rattle.meaning.specs.TemplateRules as rules;
ghost use Rattle.doc_tree.specs.View.{document};
ghost use Rattle.gsn.specs.View.{kind_of};
ghost use Rattle.templates.specs.NodeWords.{word_view};

use doc_tree::Doc;
use gsn::NodeKind;

/// The kind that a node says it has.
#[derive(Clone, Copy, PartialEq, Eq, Debug)]
pub enum NodeWord {
    Goal,
    Strategy,
    Solution,
    Context,
    Assumption,
    Justification,
    Use,
    /// It is no kind.
    Unknown,
}

/// The kind of a word.
fn word_of(text: &str) -> NodeWord
    ensures { word_view result ≡ rules.kind_named text.now }
{
    match text {
        "goal" => NodeWord::Goal,
        "strategy" => NodeWord::Strategy,
        "solution" => NodeWord::Solution,
        "context" => NodeWord::Context,
        "assumption" => NodeWord::Assumption,
        "justification" => NodeWord::Justification,
        "use" => NodeWord::Use,
        _ => NodeWord::Unknown,
    }
}

/// The kind that a node says it has.
pub fn node_word(node: &Doc) -> NodeWord
    ensures { word_view result ≡ rules.kind_in (document node.now) }
{
    word_of(node.text_at("kind"))
}

/// The kind of a node that is no use.
pub fn node_kind(text: &str) -> NodeKind
    ensures { kind_of result ≡ texts.node_kind text.now }
{
    match text {
        "strategy" => NodeKind::Strategy,
        "solution" => NodeKind::Solution,
        "context" => NodeKind::Context,
        "assumption" => NodeKind::Assumption,
        "justification" => NodeKind::Justification,
        _ => NodeKind::Goal,
    }
}

/// Whether a node of this kind annotates what it stands under.
fn is_annotation(kind: NodeKind) -> bool
    ensures { result ≡ meaning.annotates (meaning.Plain (kind_of kind)) }
{
    matches!(
        kind,
        NodeKind::Context | NodeKind::Assumption | NodeKind::Justification
    )
}

/// Whether a node annotates what it stands under.
pub fn annotates(node: &Doc) -> bool
    ensures { result ≡ meaning.annotates (texts.kind_of [] [] (document node.now)) }
{
    let text = node.text_at("kind");
    text != "use" && is_annotation(node_kind(text))
}

impl NodeWord {
    /// Whether a node of the kind argues: it may be supported.
    pub fn argues(self) -> bool
        ensures { result ≡ rules.is_goal_or_strategy (word_view self) }
    {
        matches!(self, NodeWord::Goal | NodeWord::Strategy)
    }

    /// Whether a node of the kind supports what it stands under.
    pub fn supports(self) -> bool
        ensures { result ≡ rules.supports (word_view self) }
    {
        matches!(
            self,
            NodeWord::Goal | NodeWord::Strategy | NodeWord::Solution | NodeWord::Use
        )
    }

    /// Whether a node of the kind may stand under one of another kind.
    pub fn may_stand_under(self, upper: NodeWord) -> bool
        ensures { result ≡ rules.may_stand_under (word_view self) (word_view upper) }
    {
        match self {
            NodeWord::Unknown => false,
            NodeWord::Strategy | NodeWord::Solution => upper == NodeWord::Goal,
            _ => upper.argues(),
        }
    }
}

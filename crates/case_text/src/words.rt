//! The words of a node's first line.

ghost use Rattle.std.specs.Prelude.{◌≡◌, ◌<◌, ◌++◌, [], codes, if◌then◌else◌};
ghost use Rattle.meaning.specs.Cases as plain;
ghost use Rattle.gsn.specs.View.{kind_of, status_view};

use gsn::{NodeKind, Status3};

/// The letters that identifiers of this kind begin with.
pub fn letters(kind: NodeKind) -> &'static str
    ensures { result.now ≡ plain.letters (kind_of kind) }
{
    match kind {
        NodeKind::Goal => "G",
        NodeKind::Strategy => "S",
        NodeKind::Solution => "Sn",
        NodeKind::Context => "C",
        NodeKind::Assumption => "A",
        NodeKind::Justification => "J",
    }
}

/// The number of the kind among the kinds.
pub fn kind_number(kind: NodeKind) -> usize
    ensures number { result ≡ plain.kind_number (kind_of kind) }
    ensures within { result < 6 }
{
    match kind {
        NodeKind::Goal => 0,
        NodeKind::Strategy => 1,
        NodeKind::Solution => 2,
        NodeKind::Context => 3,
        NodeKind::Assumption => 4,
        NodeKind::Justification => 5,
    }
}

/// The word for the kind, after a space.
pub fn kind_word(kind: NodeKind) -> &'static str
    ensures { result.now ≡ codes " " ++ plain.kind_word (kind_of kind) }
{
    match kind {
        NodeKind::Goal => " goal",
        NodeKind::Strategy => " strategy",
        NodeKind::Solution => " solution",
        NodeKind::Context => " context",
        NodeKind::Assumption => " assumption",
        NodeKind::Justification => " justification",
    }
}

/// The word for the status, after a space, where nodes of this kind have one.
pub fn status_word(kind: NodeKind, status: Status3) -> &'static str
    ensures { result.now ≡ (if plain.has_status (kind_of kind) then codes " " ++ plain.status_word (status_view status) else []) }
{
    match kind {
        NodeKind::Goal | NodeKind::Strategy | NodeKind::Solution => match status {
            Status3::Supported => " supported",
            Status3::Refuted => " refuted",
            Status3::Open => " open",
        },
        NodeKind::Context | NodeKind::Assumption | NodeKind::Justification => "",
    }
}

/// The word for an undeveloped node, after a space.
pub fn undeveloped_word(undeveloped: bool) -> &'static str
    ensures { result.now ≡ (if undeveloped then codes " undeveloped" else []) }
{
    if undeveloped { " undeveloped" } else { "" }
}

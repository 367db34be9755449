ghost use Rattle.std.specs.Prelude.{◌≡◌};
ghost use Rattle.meaning.specs.BundlePlaces.{part_word};

/// A part of a bundle or of a case, in the order in which faults come.
#[derive(Clone, Copy, Debug, PartialEq, Eq)]
pub enum Part {
    Document,
    Bundle,
    Features,
    Rules,
    Types,
    Kinds,
    Labels,
    Elements,
    Links,
    Systems,
    States,
    Transitions,
    Owners,
    Templates,
    Params,
    Nodes,
    Line,
    Valid,
    Table,
    Relations,
}

impl Part {
    ghost use Rattle.doc_tree.specs.Places.{part_of};

    /// The word that a refusal prints.
    pub fn word(self) -> &'static str
        ensures { result.now ≡ part_word (part_of self) }
    {
        match self {
            Part::Document => "document",
            Part::Bundle => "bundle",
            Part::Features => "features",
            Part::Rules => "rules",
            Part::Types => "types",
            Part::Kinds => "kinds",
            Part::Labels => "labels",
            Part::Elements => "elements",
            Part::Links => "links",
            Part::Systems => "systems",
            Part::States => "states",
            Part::Transitions => "transitions",
            Part::Owners => "owners",
            Part::Templates => "templates",
            Part::Params => "params",
            Part::Nodes => "nodes",
            Part::Line => "line",
            Part::Valid => "valid",
            Part::Table => "table",
            Part::Relations => "relations",
        }
    }
}

/// A broken rule of a bundle or a case, with its place: the item of the part, the item inside
/// that, and the byte of a text. A place that doesn't apply is 0.
#[derive(Clone, Copy, Debug, PartialEq, Eq)]
pub struct BundleFault {
    pub rule: u8,
    pub part: Part,
    pub item: u32,
    pub sub: u32,
    pub at: u32,
}

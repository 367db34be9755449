//! The text of a node.

ghost use Rattle.std.specs.Prelude.{◌≡◌, ◌<◌, ◌++◌, OnOk, map, length, string_bytes, All};
ghost use Rattle.gsn.specs.View.{node_of, status_view};
ghost use Rattle.case_text.specs.Parts.{node_text};

use crate::lines::{put_ends, put_first};
use crate::put::put;
use doc_tree::NoMemory;
use gsn::{CNode, Status3};

/// The lines of the node with this place.
pub fn put_node(
    out: &mut Vec<u8>,
    place: usize,
    node: &CNode,
    status: Status3,
    identifiers: &[String],
    contexts: &[u32],
    supports: &[u32],
) -> Result<(), NoMemory>
    requires place { place < length identifiers.now }
    requires contexts { All (λ t. t < length identifiers.now) contexts.now }
    requires supports { All (λ t. t < length identifiers.now) supports.now }
    ensures { OnOk result (out.new.items ≡ out.old.items
        ++ node_text (map string_bytes identifiers.now) place (node_of node.now) (status_view status) contexts.now supports.now) }
{
    put_first(out, identifiers[place].as_str(), node, status)?;
    put(out, b"  ")?;
    put(out, node.text.text().as_bytes())?;
    put(out, b"\n")?;
    put_ends(out, "  in context of", contexts, identifiers)?;
    put_ends(out, "  supported by", supports, identifiers)
}

//! Lines of the text.

ghost use Rattle.std.specs.Prelude.{◌≡◌, ◌<◌, ◌++◌, ◌∷◌, [], OnOk, map, length, string_bytes, All, codes, if◌then◌else◌};
ghost use Rattle.meaning.specs.Cases as plain;
ghost use Rattle.gsn.specs.View.{kind_of, status_view};
ghost use Rattle.case_text.specs.Parts.{ends_line, first_line, true_names_text};

use crate::put::put;
use crate::words::{kind_word, status_word, undeveloped_word};
use cond_text::Names;
use doc_tree::NoMemory;
use gsn::{CNode, Status3};

/// A line with these words and the identifiers of the targets, where there are any.
pub fn put_ends(
    out: &mut Vec<u8>,
    words: &str,
    targets: &[u32],
    identifiers: &[String],
) -> Result<(), NoMemory>
    requires { All (λ t. t < length identifiers.now) targets.now }
    ensures { OnOk result (out.new.items ≡ out.old.items ++ ends_line (map string_bytes identifiers.now) words.now targets.now) }
{
    if targets.is_empty() {
        return Ok(());
    }
    put(out, words.as_bytes())?;
    'targets: for target in targets {
        put(out, b" ")?;
        put(out, identifiers[*target as usize].as_bytes())?;
    }
    put(out, b"\n")
}

/// A node's identifier, the word for its kind, its status and whether it is undeveloped.
pub fn put_first(
    out: &mut Vec<u8>,
    identifier: &str,
    node: &CNode,
    status: Status3,
) -> Result<(), NoMemory>
    ensures { OnOk result (out.new.items ≡ out.old.items
        ++ first_line identifier.now (kind_of node.now.kind) (status_view status) node.now.undeveloped) }
{
    put(out, identifier.as_bytes())?;
    put(out, kind_word(node.kind).as_bytes())?;
    put(out, status_word(node.kind, status).as_bytes())?;
    put(out, undeveloped_word(node.undeveloped).as_bytes())?;
    put(out, b"\n")
}

/// The title, and the names of the features that are true.
pub fn put_heading(
    out: &mut Vec<u8>,
    title: &str,
    features: &Names,
    world: &[bool],
) -> Result<(), NoMemory>
    requires { length world.now ≡ length features.now }
    ensures { OnOk result (out.new.items ≡ out.old.items ++ plain.heading (codes "case") title.now features.now world.now) }
{
    put(out, b"case ")?;
    put(out, title.as_bytes())?;
    put(out, b"\nwith")?;
    put_true_names(out, features, world)?;
    put(out, b"\n")
}

/// The names of the features that are true, each after a space.
fn put_true_names(out: &mut Vec<u8>, features: &Names, world: &[bool]) -> Result<(), NoMemory>
    requires { length world.now ≡ length features.now }
    ensures { OnOk result (out.new.items ≡ out.old.items ++ true_names_text features.now world.now) }
{
    'features: for feature in 0..features.count() {
        if world[feature as usize] {
            put(out, b" ")?;
            put(out, features.name(feature).as_bytes())?;
        }
    }
    Ok(())
}

//! The document that a file holds, in the format that its name tells.

ghost use Rattle.std.specs.Prelude.{◌≡◌, IfOk, Err, Some, None};
ghost use Rattle.meaning.specs.Documents.{document_of};
ghost use Rattle.meaning.specs.Words.{form_named};
ghost use Rattle.doc_tree.specs.View.{document};
ghost use Rattle.doc_tree.specs.declared.read.DocStop.{DocStop};

use crate::files::is_toml;
use doc_tree::{Doc, DocStop, from_json, from_toml};
use std::alloc::Global;

/// The document that the bytes of a file with this name are: TOML where the name ends in `.toml`, and else JSON.
pub fn read_document(alloc: Global, name: &str, bytes: &[u8]) -> Result<Doc, DocStop>
    ensures ok { IfOk result (λ d. document_of (form_named name.now) bytes.now ≡ Some (document d)) }
    ensures not { result ≡ Err DocStop.NotDocument → document_of (form_named name.now) bytes.now ≡ None }
{
    if is_toml(name) {
        from_toml(alloc, bytes)
    } else {
        from_json(alloc, bytes)
    }
}

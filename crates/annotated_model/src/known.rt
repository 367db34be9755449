//! What the parts from the types to the elements give to the later parts.

ghost use Rattle.std.specs.Prelude.{◌≡◌, ◌≤◌, [], IfOk, IfErr, codes, length, map};
ghost use Rattle.meaning.specs.Documents.{list_at};
ghost use Rattle.meaning.specs.BundlePlaces.{Types, name_in};
ghost use Rattle.doc_tree.specs.View.{document};
ghost use Rattle.annotated_model.specs.Faults.{IsFirst};
ghost use Rattle.annotated_model.specs.Items.{part_faults, types_broken, types_told};
ghost use Rattle.annotated_model.specs.Parts.{known_faults};
ghost use Rattle.annotated_model.specs.Known.{Knows};
ghost use Rattle.annotated_model.specs.View.{type_view};

use crate::data::{Element, LinkKind, TypeDef};
use crate::elements::read_elements;
use crate::fault::ModelStop;
use crate::kinds::read_kinds;
use crate::labels::read_labels;
use crate::types::read_types;
use cond_text::Names;
use doc_tree::{Doc, Row};
use std::alloc::Global;

/// Types, link kinds, labels and elements as they were read, and their names.
#[derive(Drop)]
pub struct Known {
    pub types: Row<TypeDef>,
    pub type_names: Names,
    pub kinds: Row<LinkKind>,
    pub kind_names: Names,
    pub labels: Names,
    pub elements: Row<Element>,
    pub element_names: Names,
}

/// Reads the types, link kinds, labels and elements of a model table.
pub fn read_known(alloc: Global, features: &Names, model: &Doc) -> Result<Known, ModelStop>
    ensures knows { IfOk result (λ known. Knows known features.now (document model.now)) }
    ensures none { IfOk result (λ known. known_faults features.now (document model.now) ≡ []) }
    ensures fault { IfErr result (IsFirst (known_faults features.now (document model.now))) }
{
    let (types, type_names) = read_types(alloc, model)?;
    let later = read_later(alloc, features, &types, &type_names, model)?;
    Ok(Known {
        types,
        type_names,
        kinds: later.kinds,
        kind_names: later.kind_names,
        labels: later.labels,
        elements: later.elements,
        element_names: later.element_names,
    })
}

/// Link kinds, labels and elements as they were read, and their names.
#[derive(Drop)]
struct Later {
    kinds: Row<LinkKind>,
    kind_names: Names,
    labels: Names,
    elements: Row<Element>,
    element_names: Names,
}

/// Reads the link kinds, labels and elements of a model table, over its types.
fn read_later(
    alloc: Global,
    features: &Names,
    types: &Row<TypeDef>,
    type_names: &Names,
    model: &Doc,
) -> Result<Later, ModelStop>
    requires values { map type_view types.now ≡ types_told [] [] (list_at (codes "types") (document model.now)) }
    requires names { type_names.now ≡ map name_in (list_at (codes "types") (document model.now)) }
    requires few { length type_names.now ≤ 256 }
    requires none { part_faults Types (codes "types") types_broken (document model.now) ≡ [] }
    ensures knows { IfOk result (λ r. Knows (record {
      types = types.now;
      type_names = type_names.now;
      kinds = r.kinds;
      kind_names = r.kind_names;
      labels = r.labels;
      elements = r.elements;
      element_names = r.element_names;
    }) features.now (document model.now)) }
    ensures none { IfOk result (λ _. known_faults features.now (document model.now) ≡ []) }
    ensures fault { IfErr result (IsFirst (known_faults features.now (document model.now))) }
{
    let (kinds, kind_names) = read_kinds(alloc, type_names, model)?;
    let labels = read_labels(alloc, model)?;
    let (elements, element_names) = read_elements(
        alloc,
        features,
        type_names,
        types.list(),
        model,
    )?;
    Ok(Later {
        kinds,
        kind_names,
        labels,
        elements,
        element_names,
    })
}

//! That an element of a system type has a system, and which.

ghost use Rattle.std.specs.Prelude.{◌≡◌, ◌≤◌, ◌<◌, ◌^◌, [], IfOk, IfErr, map, length};
ghost use Rattle.meaning.specs.Texts.{place_of};
ghost use Rattle.meaning.specs.BundlePlaces.{Owners, faults_at};
ghost use Rattle.annotated_model.specs.View.{type_view, element_view};
ghost use Rattle.annotated_model.specs.Faults.{IsFirst};
ghost use Rattle.annotated_model.specs.Owners.{owner_broken, owners_broken};

use crate::data::{Element, TypeDef};
use crate::fault::{ModelStop, Place};
use crate::names::is_known;
use crate::types::system_at;
use cond_text::Names;
use doc_tree::{Part, Row};

/// The rule at the element with this number, where these elements have systems.
fn check(
    types: &[TypeDef],
    owners: &Names,
    number: usize,
    element: &Element,
) -> Result<(), ModelStop>
    requires { number < 2 ^ 32 }
    ensures none { IfOk result (λ _. owner_broken (map type_view types.now) owners.now (element_view element.now) ≡ []) }
    ensures fault { IfErr result (IsFirst (faults_at Owners number 0 (owner_broken (map type_view types.now) owners.now (element_view element.now)))) }
{
    let of_system_type = system_at(types, Some(element.of_type));
    let has_system = is_known(owners, element.name.text());
    Place::item(Part::Owners, number).require(20, !of_system_type || has_system)
}

/// That each element of a system type is among those that have systems.
pub fn check_owners(
    types: &[TypeDef],
    owners: &Names,
    elements: &[Element],
) -> Result<(), ModelStop>
    requires { length elements.now ≤ 2048 }
    ensures none { IfOk result (λ _. owners_broken (map type_view types.now) owners.now 0 (map element_view elements.now) ≡ []) }
    ensures fault { IfErr result (IsFirst (owners_broken (map type_view types.now) owners.now 0 (map element_view elements.now))) }
{
    'elements: for (number, element) in elements.iter().enumerate() {
        check(types, owners, number, element)?;
    }
    Ok(())
}

/// Gives each element the place of its system, where these elements have systems.
fn place_systems(owners: &Names, elements: &mut [Element])
    ensures elements { map element_view elements.new ≡ map element_view elements.old }
    ensures systems { map (λ e. e.system) elements.new ≡ map (λ e. place_of e.name owners.now) (map element_view elements.old) }
{
    'elements: for element in elements.iter_mut() {
        let system = owners.find(element.name.text());
        element.system = system;
    }
}

/// The elements, each with the place of its system.
pub fn with_systems(owners: &Names, elements: Row<Element>) -> Row<Element>
    ensures elements { map element_view result ≡ map element_view elements }
    ensures systems { map (λ e. e.system) result ≡ map (λ e. place_of e.name owners.now) (map element_view elements) }
{
    let mut elements = elements.items();
    place_systems(owners, elements.as_mut_slice());
    Row::of(elements)
}

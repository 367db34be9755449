//! Configurations: which features are true.

ghost use Rattle.std.specs.Prelude.{◌≡◌, length, IfOk, IfErr, OnOk, Some, option_map, unwrap_or, []};
ghost use Rattle.std.specs.List.{list_all};
ghost use Rattle.meaning.specs.BundlePlaces.{is_text_value};
ghost use Rattle.std.specs.Option.{option_copied};
ghost use Rattle.meaning.specs.Documents as meaning;
ghost use Rattle.meaning.specs.Counts.{capped};
ghost use Rattle.meaning.specs.Configurations.{World, of_names, world_of};
ghost use Rattle.doc_tree.specs.View.{document, documents};
ghost use Rattle.cond_text.specs.Lists.{AreDistinct};
ghost use Rattle.feature_model.specs.Configs.{told, config_of, TellsStop, Marks};
ghost use Rattle.feature_model.specs.declared.config.ConfigStop.TheVariants.{NoMemory};

use cond_text::Names;
use doc_tree::{Doc, Row};
use std::alloc::{AllocError, AllocFailed, Global};

/// Why a document is no configuration of these features. A place counts the names of the list from 0,
/// and past 4,294,967,295 it is told as that number.
#[derive(Clone, Copy, Debug, PartialEq, Eq)]
pub enum ConfigStop {
    /// The document has no list of texts under `features`.
    NotList,
    /// No feature has the name at this place.
    UnknownFeature(u32),
    /// The name at this place stands at an earlier one too.
    Repeated(u32),
    NoMemory,
}

impl From<AllocError> for ConfigStop {
    ghost from_gives = { λ e stop. stop ≡ NoMemory };

    fn from(_: AllocError) -> ConfigStop {
        ConfigStop::NoMemory
    }
}

impl<T: Drop> From<AllocFailed<T>> for ConfigStop {
    ghost from_gives = { λ e stop. stop ≡ NoMemory };

    fn from(_: AllocFailed<T>) -> ConfigStop {
        ConfigStop::NoMemory
    }
}

/// The world that a configuration names: a truth value for each feature, true where the document lists its name under `features`.
///
/// A document that is no table has no list. Of several stops the one at the earlier place is told, and `NotList` before any other.
pub fn read_config(alloc: Global, doc: &Doc, features: &Names) -> Result<Row<bool>, ConfigStop>
    ensures ok { IfOk result (λ w. config_of features.now (document doc.now) ≡ World w) }
    ensures stop { IfErr result (λ stop. TellsStop stop (config_of features.now (document doc.now))) }
{
    let Some(items) = told_items(doc) else {
        return Err(ConfigStop::NotList);
    };
    let mut world = vec![in alloc; false; usize::from(features.count())]?;
    mark_all(&mut world, features, items)?;
    Ok(Row::of(world))
}

/// The items of the list under `features`, if each is a text.
fn told_items(doc: &Doc) -> Option<&[Doc]>
    ensures { option_map (λ items. meaning.texts_in (documents items)) (option_copied result) ≡ told (document doc.now) }
{
    let items = doc.member("features")?.as_list()?;
    if are_texts(items) { Some(items) } else { None }
}

fn are_texts(items: &[Doc]) -> bool
    ensures { result ≡ list_all is_text_value (documents items.now) }
{
    'items: for item in items {
        if !item.is_text() {
            return false;
        }
    }
    true
}

/// The text that a value is, and an empty one where it is none.
pub fn text_of(item: &Doc) -> &str
    ensures { result.now ≡ unwrap_or (meaning.as_text (document item.now)) [] }
{
    item.as_text().unwrap_or("")
}

/// Makes the features true that the items name, in a world where none is.
fn mark_all(world: &mut [bool], features: &Names, items: &[Doc]) -> Result<(), ConfigStop>
    requires none { world.old ≡ world_of features.now [] }
    requires distinct { AreDistinct features.now }
    ensures ok { OnOk result (of_names features.now (Some (meaning.texts_in (documents items.now))) ≡ World world.new) }
    ensures stop { IfErr result (λ stop. TellsStop stop (of_names features.now (Some (meaning.texts_in (documents items.now))))) }
{
    'items: for (at, item) in items.iter().enumerate() {
        mark(world, features, text_of(item), at)?;
    }
    Ok(())
}

/// Makes the named feature true, which was false.
fn mark(world: &mut [bool], features: &Names, name: &str, at: usize) -> Result<(), ConfigStop>
    requires { length world.old ≡ length features.now }
    ensures { Marks features.now world.old name.now at result world.new }
{
    match features.find(name) {
        None => Err(ConfigStop::UnknownFeature(told_place(at))),
        Some(no) => {
            let no = usize::from(no);
            if world[no] {
                return Err(ConfigStop::Repeated(told_place(at)));
            }
            world[no] = true;
            Ok(())
        }
    }
}

/// The place as it is told.
fn told_place(at: usize) -> u32
    ensures { result ≡ capped at }
{
    at.min(4_294_967_295) as u32
}

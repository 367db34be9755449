//! The names that the items of a list give.

ghost use Rattle.std.specs.Prelude.{◌≡◌, ◌++◌, ◌∷◌, ◌<◌, [], length, IfErr, false, OnOk};
ghost use Rattle.meaning.specs.BundlePlaces as places;
ghost use Rattle.templates.specs.declared.fault.TemplateStop.TheVariants.{NoMemory};

use crate::fault::TemplateStop;
use cond_text::{NameStop, Names};

/// Whether a text is one of the names.
#[tactic(auto, using(meaning::proofs::NamePlaces::some_place))]
pub fn is_known(names: &Names, text: &str) -> bool
    ensures { result ≡ places.is_among names.now text.now }
{
    names.find(text).is_some()
}

/// Adds a new name behind the others.
pub fn add_new(names: &mut Names, name: &str) -> Result<(), TemplateStop>
    requires few { length names.old < 65535 }
    requires new { places.is_among names.old name.now ≡ false }
    ensures added { OnOk result (names.new ≡ names.old ++ name.now ∷ []) }
    ensures stop { IfErr result (λ stop. stop ≡ NoMemory) }
{
    match names.add(name) {
        Ok(_) => Ok(()),
        Err(NameStop::Repeated(_)) => unreachable!(),
        Err(NameStop::NoMemory) => Err(TemplateStop::NoMemory),
    }
}

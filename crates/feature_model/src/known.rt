//! Whether a name is one of a list.

ghost use Rattle.std.specs.Prelude.{◌≡◌};
ghost use Rattle.meaning.specs.BundlePlaces.{is_among};

use cond_text::Names;

#[tactic(auto, using(crate::proofs::Places::among_is))]
pub fn is_known(names: &Names, name: &str) -> bool
    ensures { result ≡ is_among names.now name.now }
{
    names.find(name).is_some()
}

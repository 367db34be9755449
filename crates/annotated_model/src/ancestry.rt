//! Which type is below which.

ghost use Rattle.std.specs.Prelude.{◌≡◌, map, slice_get, option_and_then};
ghost use Rattle.meaning.specs.Models as meaning;
ghost use Rattle.annotated_model.specs.View.{type_view};

use crate::data::TypeDef;

/// The parent of a type, if there is one.
fn parent_of(types: &[TypeDef], t: u16) -> Option<u16>
    ensures { result ≡ meaning.parent_of (map type_view types.now) t }
{
    match types.get(usize::from(t)) {
        Some(found) => found.parent,
        None => None,
    }
}

/// Whether a type is another one or below it.
pub fn is_a(types: &[TypeDef], t: u16, of: u16) -> bool
    ensures { result ≡ meaning.is_a (map type_view types.now) t of }
{
    let mut met = Some(t);
    'up: for _step in 0..types.len() {
        match met {
            Some(no) => {
                if no == of {
                    return true;
                }
                met = parent_of(types, no);
            }
            None => return false,
        }
    }
    false
}

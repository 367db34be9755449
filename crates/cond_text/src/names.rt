//! Lists of distinct names, numbered from 0.

ghost use Rattle.std.specs.Prelude.{◌≡◌, ◌<◌, ◌++◌, ◌∷◌, [], length, slice_get, Some, None, IfOk, IfErr, OnErr, option_map};
ghost use Rattle.meaning.specs.Texts.{place_of};
ghost use Rattle.cond_text.specs.Lists.{Refuses, AreDistinct};
ghost use Rattle.cond_text.specs.declared.names.NameStop.TheVariants.{NoMemory};

use indexmap::IndexSet;
use std::alloc::{AllocError, AllocFailed, Global};
use std::marker::Model;

/// A list of distinct names. The first name has number 0, and there are at most 65,535.
///
/// Contracts see it as the list of its texts.
#[derive(Debug, Drop)]
pub struct Names {
    texts: IndexSet<String>,
}

impl Model for Names {
    ghost use Rattle.std.specs.Prelude.{List, ℕ, ◌≤◌, length, map, string_bytes};

    ghost Value = { List (List ℕ) };

    ghost view = { λ names. map string_bytes names.texts.keys };

    ghost invariant = { λ names. length names.texts.keys ≤ 65535 };
}

/// Why a name was not added.
#[derive(Clone, Copy, Debug, PartialEq, Eq)]
pub enum NameStop {
    /// The name is there, with this number.
    Repeated(u16),
    NoMemory,
}

impl From<AllocError> for NameStop {
    ghost from_gives = { λ e stop. stop ≡ NoMemory };

    fn from(_: AllocError) -> NameStop {
        NameStop::NoMemory
    }
}

impl<T: Drop> From<AllocFailed<T>> for NameStop {
    ghost from_gives = { λ e stop. stop ≡ NoMemory };

    fn from(_: AllocFailed<T>) -> NameStop {
        NameStop::NoMemory
    }
}

impl Names {
    /// No names. It keeps the allocator, and takes no memory.
    pub fn new(alloc: Global) -> Names
        ensures { result ≡ [] }
    {
        Names {
            texts: IndexSet::new(alloc),
        }
    }

    /// Adds a name behind the others, and answers its number.
    pub fn add(&mut self, name: &str) -> Result<u16, NameStop>
        requires { length self.old < 65535 }
        ensures added { IfOk result (λ no. (no ≡ length self.old) × (self.new ≡ self.old ++ name.now ∷ []) × (place_of name.now self.old ≡ None)) }
        ensures stop { IfErr result (λ stop. Refuses stop (place_of name.now self.old)) }
        ensures kept { OnErr result (self.new ≡ self.old) }
    {
        match self.find(name) {
            Some(no) => Err(NameStop::Repeated(no)),
            None => Ok(self.add_new(name)?),
        }
    }

    /// Adds a name that isn't there behind the others, and answers its number.
    pub fn add_new(&mut self, name: &str) -> Result<u16, AllocError>
        requires few { length self.old < 65535 }
        requires new { place_of name.now self.old ≡ None }
        ensures added { IfOk result (λ no. (no ≡ length self.old) × (self.new ≡ self.old ++ name.now ∷ [])) }
        ensures kept { OnErr result (self.new ≡ self.old) }
    {
        let text = String::from_str(*self.texts.allocator(), name)?;
        let (no, _) = self.texts.insert_full(text)?;
        Ok(no as u16)
    }

    /// The number of a name, and `None` exactly where it isn't there.
    pub fn find(&self, name: &str) -> Option<u16>
        ensures { result ≡ place_of name.now self.now }
    {
        match self.texts.get_index_of(name) {
            Some(no) => Some(no as u16),
            None => None,
        }
    }

    /// How many names there are.
    pub fn count(&self) -> u16
        ensures count { result ≡ length self.now }
        ensures distinct { AreDistinct self.now }
    {
        self.texts.len() as u16
    }

    /// The name with a number.
    pub fn name(&self, no: u16) -> &str
        requires { no < length self.now }
        ensures name { slice_get self.now no ≡ Some result.now }
        ensures place { place_of result.now self.now ≡ Some no }
    {
        self.texts.as_slice()[usize::from(no)].as_str()
    }
}

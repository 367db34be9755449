//! Why templates are not read: a broken rule at its place, or want of memory.

ghost use Rattle.std.specs.Prelude.{◌≡◌, ◌<◌, ◌^◌, [], ◌∷◌, IfOk, IfErr, true};
ghost use Rattle.meaning.specs.BundlePlaces as places;
ghost use Rattle.annotated_model.specs.Items.{named_form, texts_form};
ghost use Rattle.templates.specs.Faults.{IsFirst, faults_here};
ghost use Rattle.templates.specs.declared.fault.TemplateStop.TheVariants.{NoMemory};

use doc_tree::{BundleFault, Part};
use std::alloc::{AllocError, AllocFailed};

/// Why the templates of a bundle were not read.
#[derive(Clone, Copy, Debug, PartialEq, Eq)]
pub enum TemplateStop {
    /// The first rule that the templates break, with its place.
    Fault(BundleFault),
    NoMemory,
}

impl From<AllocError> for TemplateStop {
    ghost from_gives = { λ e stop. stop ≡ NoMemory };

    fn from(_: AllocError) -> TemplateStop {
        TemplateStop::NoMemory
    }
}

impl<T: Drop> From<AllocFailed<T>> for TemplateStop {
    ghost from_gives = { λ e stop. stop ≡ NoMemory };

    fn from(_: AllocFailed<T>) -> TemplateStop {
        TemplateStop::NoMemory
    }
}

impl From<doc_tree::NoMemory> for TemplateStop {
    ghost from_gives = { λ e stop. stop ≡ NoMemory };

    fn from(_: doc_tree::NoMemory) -> TemplateStop {
        TemplateStop::NoMemory
    }
}

/// Where a rule is tested: an item of a part, and the item inside that.
#[derive(Clone, Copy)]
pub struct Place {
    pub part: Part,
    pub item: u32,
    pub sub: u32,
}

impl Place {
    /// An item of a part.
    pub fn item(part: Part, item: usize) -> Place
        requires { item < 2 ^ 32 }
        ensures { result ≡ record { part = part; item = item; sub = 0 } }
    {
        Place {
            part,
            item: item as u32,
            sub: 0,
        }
    }

    /// An item inside an item of a part.
    pub fn inside(part: Part, item: usize, sub: usize) -> Place
        requires item { item < 2 ^ 32 }
        requires sub { sub < 2 ^ 32 }
        ensures { result ≡ record { part = part; item = item; sub = sub } }
    {
        Place {
            part,
            item: item as u32,
            sub: sub as u32,
        }
    }

    /// A rule that is broken here, at a byte of a text.
    pub fn broken_at(self, rule: u8, at: u32) -> TemplateStop
        ensures { IsFirst (faults_here self ((rule, at) ∷ [])) result }
    {
        TemplateStop::Fault(BundleFault {
            rule,
            part: self.part,
            item: self.item,
            sub: self.sub,
            at,
        })
    }

    /// The rule is broken here unless this holds.
    pub fn require(self, rule: u8, holds: bool) -> Result<(), TemplateStop>
        ensures ok { IfOk result (λ _. holds ≡ true) }
        ensures none { IfOk result (λ _. places.requires rule holds ≡ []) }
        ensures fault { IfErr result (IsFirst (faults_here self (places.requires rule holds))) }
    {
        if holds {
            Ok(())
        } else {
            Err(self.broken_at(rule, 0))
        }
    }

    /// The rules of form of an item that gives a name: its form, the name, that it is new, and the limit.
    pub fn require_named(
        self,
        form: bool,
        named: bool,
        new: bool,
        within: bool,
    ) -> Result<(), TemplateStop>
        ensures none { IfOk result (λ _. named_form form named new within ≡ []) }
        ensures new { IfOk result (λ _. new ≡ true) }
        ensures within { IfOk result (λ _. within ≡ true) }
        ensures fault { IfErr result (IsFirst (faults_here self (named_form form named new within))) }
    {
        self.require(2, form)?;
        self.require(3, named)?;
        self.require(5, new)?;
        self.require(6, within)
    }

    /// The rules of form of a node: its form, the identifier, the lengths of texts, that the identifier is new, and the limit.
    pub fn require_texts(
        self,
        form: bool,
        named: bool,
        fit: bool,
        new: bool,
        within: bool,
    ) -> Result<(), TemplateStop>
        ensures none { IfOk result (λ _. texts_form form named fit new within ≡ []) }
        ensures fit { IfOk result (λ _. fit ≡ true) }
        ensures new { IfOk result (λ _. new ≡ true) }
        ensures within { IfOk result (λ _. within ≡ true) }
        ensures fault { IfErr result (IsFirst (faults_here self (texts_form form named fit new within))) }
    {
        self.require(2, form)?;
        self.require(3, named)?;
        self.require(4, fit)?;
        self.require(5, new)?;
        self.require(6, within)
    }
}

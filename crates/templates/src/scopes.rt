//! The variables in scope at the nodes of a template.

ghost use Rattle.std.specs.Prelude.{◌≡◌, ◌<◌, ◌++◌, ◌∷◌, [], Some, length, IfOk, IfErr, OnOk};
ghost use Rattle.std.specs.List.{slice_get};
ghost use Rattle.templates.specs.declared.fault.TemplateStop.TheVariants.{NoMemory};
ghost use Rattle.templates.specs.ScopeReads.{place_below, added_scope, added_spot};

use crate::fault::TemplateStop;
use doc_tree::{Row, Word};
use std::alloc::Global;

/// The places, among all scopes, of the one at a node and of the one below the answers of its `each`.
#[derive(Clone, Copy, Debug, PartialEq, Eq)]
pub struct Spot {
    pub scope: usize,
    pub below: usize,
}

/// The variables in scope at the nodes so far. The first scope has the parameters alone.
#[derive(Drop)]
pub struct Scopes {
    pub all: Vec<Row<(Word, u16)>>,
    pub spots: Vec<Spot>,
}

/// Adds copies of variables.
fn add_copies(
    alloc: Global,
    all: &mut Vec<(Word, u16)>,
    more: &[(Word, u16)],
) -> Result<(), TemplateStop>
    ensures added { OnOk result (all.new.items ≡ all.old.items ++ more.now) }
    ensures stop { IfErr result (λ stop. stop ≡ NoMemory) }
{
    'more: for variable in more {
        let name = Word::of(alloc, variable.0.text())?;
        all.push((name, variable.1))?;
    }
    Ok(())
}

/// A scope, and new variables behind it.
fn extended(
    alloc: Global,
    scope: &[(Word, u16)],
    new: &[(Word, u16)],
) -> Result<Row<(Word, u16)>, TemplateStop>
    ensures all { IfOk result (λ row. row ≡ scope.now ++ new.now) }
    ensures stop { IfErr result (λ stop. stop ≡ NoMemory) }
{
    let mut all = Vec::new(alloc);
    add_copies(alloc, &mut all, scope)?;
    add_copies(alloc, &mut all, new)?;
    Ok(Row::of(all))
}

impl Scopes {
    /// The scopes where no node is read.
    pub fn new(alloc: Global, parameters: &[(Word, u16)]) -> Result<Scopes, TemplateStop>
        ensures all { IfOk result (λ s. s.all.items ≡ parameters.now ∷ []) }
        ensures spots { IfOk result (λ s. s.spots.items ≡ []) }
        ensures stop { IfErr result (λ stop. stop ≡ NoMemory) }
    {
        let mut all = Vec::new(alloc);
        all.push(extended(alloc, parameters, &[])?)?;
        Ok(Scopes {
            all,
            spots: Vec::new(alloc),
        })
    }

    /// The place of the scope at a node that annotates the one above it or not.
    pub fn place_under(&self, above: Option<u16>, annotation: bool) -> usize
        ensures { result ≡ place_below annotation above self.now.spots.items }
    {
        match above {
            Some(upper) => match self.spots.get(usize::from(upper)) {
                Some(spot) => { if annotation { spot.scope } else { spot.below } }
                None => 0,
            },
            None => 0,
        }
    }

    /// The scope at a place.
    pub fn at(&self, place: usize) -> &[(Word, u16)]
        requires { place < length self.now.all.items }
        ensures { slice_get self.now.all.items place ≡ Some result.now }
    {
        self.all[place].list()
    }

    /// Adds the scope below the answers of an `each` with these new variables at a place, if there is one, and tells the place of the scope below.
    #[tactic(auto, using(crate::proofs::ScopeLaws::scope_added))]
    fn add_below(
        &mut self,
        alloc: Global,
        place: usize,
        new: Option<Row<(Word, u16)>>,
    ) -> Result<usize, TemplateStop>
        requires { place < length self.old.all.items }
        ensures all { OnOk result (self.new.all.items ≡ self.old.all.items ++ added_scope (slice_get self.old.all.items place) new) }
        ensures below { IfOk result (λ below. added_spot place (length self.old.all.items) new ≡ record { scope = place; below = below }) }
        ensures spots { self.new.spots.items ≡ self.old.spots.items }
        ensures stop { IfErr result (λ stop. stop ≡ NoMemory) }
    {
        match new {
            Some(new) => {
                let below = self.all.len();
                let row = extended(alloc, self.all[place].list(), new.list())?;
                self.all.push(row)?;
                Ok(below)
            }
            None => Ok(place),
        }
    }

    /// Adds a node at the scope of a place, with the new variables of its `each`, if it has one.
    pub fn add(
        &mut self,
        alloc: Global,
        place: usize,
        new: Option<Row<(Word, u16)>>,
    ) -> Result<(), TemplateStop>
        requires { place < length self.old.all.items }
        ensures all { OnOk result (self.new.all.items ≡ self.old.all.items ++ added_scope (slice_get self.old.all.items place) new) }
        ensures spots { OnOk result (self.new.spots.items ≡ self.old.spots.items ++ added_spot place (length self.old.all.items) new ∷ []) }
        ensures stop { IfErr result (λ stop. stop ≡ NoMemory) }
    {
        let below = self.add_below(alloc, place, new)?;
        self.spots.push(Spot {
            scope: place,
            below,
        })?;
        Ok(())
    }
}

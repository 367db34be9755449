//! The identifiers of a case's conditions.

ghost use Rattle.std.specs.Prelude.{◌≡◌, ◌<◌, ℕ, length, map, slice_index, slice_index_or, replicate, IfOk};
ghost use Rattle.std.specs.List.{All};
ghost use Rattle.conditions.specs.Tables.{IsExported};
ghost use Rattle.conditions.specs.Diagrams.{algebra_of};
ghost use Rattle.lifted_case.specs.CaseWritten.{id_in};
ghost use Rattle.lifted_case.specs.CaseIds.{NamesAlike};

use conditions::{Cond, Diagrams, Table};
use doc_tree::{NoMemory, Row};
use std::alloc::Global;
use std::marker::Model;

/// The identifier of each condition, at the condition's number.
#[derive(Drop)]
pub struct CaseIds {
    ids: Vec<u32>,
}

impl Model for CaseIds {
    ghost use Rattle.std.specs.Prelude.{List, ℕ};

    ghost Value = { List ℕ };

    ghost view = { λ i. i.ids.items };
}

impl CaseIds {
    /// The identifier of a condition; 0 for one that has none.
    pub fn id(&self, condition: Cond) -> u32
        ensures { result ≡ id_in self.now condition }
    {
        let ids = self.ids.as_slice();
        let number = condition.0 as usize;
        if number < ids.len() { ids[number] } else { 0 }
    }
}

/// So many zeros.
fn zeros(alloc: Global, count: usize) -> Result<Vec<u32>, NoMemory>
    ensures { IfOk result (λ v. v.items ≡ replicate count 0) }
{
    let zeros = vec![in alloc; 0u32; count]?;
    Ok(zeros)
}

/// Puts the identifier of each condition at its number.
fn place(alloc: Global, count: usize, roots: &[Cond], found: &[u32]) -> Result<CaseIds, NoMemory>
    requires as_many { length found.now ≡ length roots.now }
    requires there { All (λ c. c.0 < count) roots.now }
    requires alike { NamesAlike roots.now found.now }
    ensures { IfOk result (λ ids. map (id_in ids) roots.now ≡ found.now) }
{
    let mut ids = zeros(alloc, count)?;
    'roots: for place in 0..roots.len() {
        ids[roots[place].0 as usize] = found[place];
    }
    Ok(CaseIds { ids })
}

/// The table of the conditions, and the identifier of each in it.
pub fn case_ids(alloc: Global, d: &Diagrams, roots: &[Cond]) -> Result<(Table, CaseIds), NoMemory>
    requires { All (algebra_of d.now).live roots.now }
    ensures { IfOk result (λ x. IsExported d.now.region roots.now x.0 (map (id_in x.1) roots.now)) }
{
    let (table, found) = export(alloc, d, roots)?;
    let ids = place(alloc, d.used() as usize + 2, roots, found.list())?;
    Ok((table, ids))
}

fn export(alloc: Global, d: &Diagrams, roots: &[Cond]) -> Result<(Table, Row<u32>), NoMemory>
    requires { All (algebra_of d.now).live roots.now }
    ensures { IfOk result (λ x. IsExported d.now.region roots.now x.0 x.1) }
{
    match d.export(alloc, roots) {
        Ok(exported) => Ok(exported),
        Err(conditions::NoMemory) => Err(NoMemory),
    }
}

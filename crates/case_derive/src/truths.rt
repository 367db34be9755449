//! The truth of every condition of a table at one world.

ghost use Rattle.std.specs.Prelude.{◌≡◌, IfOk, if◌then◌else◌};
ghost use Rattle.meaning.specs.Texts.{holds_at};
ghost use Rattle.conditions.specs.Tables.{case_rows};
ghost use Rattle.case_derive.specs.Truths.{TellsTable};

use crate::truth::Truth;
use doc_tree::NoMemory;
use std::alloc::Global;

/// The truth of each identifier of a table at a world: of false, of true, and then of each row. Nothing else holds.
#[derive(Drop)]
pub struct Truths {
    values: Vec<bool>,
}

/// The truth at a place, and false past the end.
fn is_true(truths: &[bool], place: usize) -> bool
    ensures { result ≡ holds_at truths.now place }
{
    place < truths.len() && truths[place]
}

/// The truth of a row's high where its variable is true, and else of its low.
fn truth_of_row(row: &(u16, u32, u32), values: &[bool], world: &[bool]) -> bool
    ensures { result ≡ holds_at values.now (if holds_at world.now row.now.0 then row.now.2 else row.now.1) }
{
    let (variable, low, high) = *row;
    if is_true(world, usize::from(variable)) {
        is_true(values, high as usize)
    } else {
        is_true(values, low as usize)
    }
}

impl Truths {
    /// Goes over the rows `(variable, low, high)` once, since a row leads to earlier ones alone.
    pub fn of(alloc: Global, rows: &[(u16, u32, u32)], world: &[bool]) -> Result<Truths, NoMemory>
        ensures { IfOk result (λ t. TellsTable (case_rows rows.now) world.now t.values.items) }
    {
        let mut values = vec![in alloc; false, true]?;
        'rows: for row in rows {
            values.push(truth_of_row(row, &values, world))?;
        }
        Ok(Truths { values })
    }
}

impl Truth for Truths {
    type C = u32;

    ghost holds = { λ truths id. holds_at truths.values.items id };

    fn at(&self, id: u32) -> bool {
        is_true(&self.values, id as usize)
    }
}

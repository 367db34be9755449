//! Conditions as the rows of a table.

ghost use Rattle.std.specs.Prelude.{◌≡◌, ◌+◌, ◌<◌, [], ◌++◌, ◌∷◌, length, replicate, IfOk, OnOk};
ghost use Rattle.std.specs.List.{All};
ghost use Rattle.conditions.specs.Tables.{IsExported};
ghost use Rattle.conditions.specs.Leaving.{IsLeaving, IsLeft};

use crate::store::Store;
use crate::table::Table;
use doc_tree::Row;
use node_pool::{NoMemory, NodeNo};
use std::alloc::Global;

/// Leaves the rows below a number, its low before its high, and then its own. `ids` has the identifier of each node whose row was left, and 0
/// for each other one.
fn leave(
    store: &Store,
    number: NodeNo,
    ids: &mut Vec<u32>,
    rows: &mut Vec<(u16, u32, u32)>,
) -> Result<u32, NoMemory>
    requires there { number.0 < length store.now.nodes + 2 }
    requires leaving { IsLeaving store.now ids.old.items rows.old.items }
    ensures { IfOk result (IsLeft store.now number.0 ids.old.items rows.old.items ids.new.items rows.new.items) }
{
    let _used = store.used();
    if number.0 < 2 {
        return Ok(number.0);
    }
    let place = number.0 as usize - 2;
    if ids[place] != 0 {
        return Ok(ids[place]);
    }
    let (var, low, high) = store.triple(number);
    let low_id = leave(store, low, ids, rows)?;
    let high_id = leave(store, high, ids, rows)?;
    push(rows, (var, low_id, high_id))?;
    let id = rows.len() as u32 + 1;
    ids[place] = id;
    Ok(id)
}

/// Appends an item.
pub fn push<T: Drop>(items: &mut Vec<T>, item: T) -> Result<(), NoMemory>
    ensures { OnOk result (items.new.items ≡ items.old.items ++ item ∷ []) }
{
    match items.push(item) {
        Ok(()) => Ok(()),
        Err(_) => Err(NoMemory),
    }
}

/// So many zeros.
fn zeros(alloc: Global, count: usize) -> Result<Vec<u32>, NoMemory>
    ensures { IfOk result (λ ids. ids.items ≡ replicate count 0) }
{
    vec![in alloc; 0; count].map_err(|_| NoMemory)
}

/// The rows below the numbers, in the order in which a walk over them first leaves each, and each number's identifier.
pub fn export(
    store: &Store,
    alloc: Global,
    numbers: &[NodeNo],
) -> Result<(Table, Row<u32>), NoMemory>
    requires { All (λ n. n.0 < length store.now.nodes + 2) numbers.now }
    ensures { IfOk result (λ exported. IsExported store.now numbers.now exported.0 exported.1) }
{
    let mut ids = zeros(alloc, store.used() as usize)?;
    let mut rows = Vec::new(alloc);
    let mut found = Vec::new(alloc);
    for number in numbers {
        let id = leave(store, *number, &mut ids, &mut rows)?;
        push(&mut found, id)?;
    }
    Ok((Table::of(store.vars(), rows), Row::of(found)))
}

//! Tables of rows that conditions are made of.

ghost use Rattle.std.specs.Prelude.{◌≡◌, ◌+◌, ◌<◌, length, IfOk};
ghost use Rattle.std.specs.List.{All};
ghost use Rattle.node_pool.specs.Nodes.{value};
ghost use Rattle.node_pool.specs.Functions.{world_of};
ghost use Rattle.conditions.specs.Tables.{nodes_of, KeepsRules};

use std::marker::Model;

/// Rows `(variable, low, high)`, each with the function of `high` where the variable is true, and else of `low`. The identifiers of functions
/// are 0 for false, 1 for true, and `k + 2` for row `k`.
#[derive(Drop)]
pub struct Table {
    features: u16,
    rows: Vec<(u16, u32, u32)>,
}

impl Model for Table {
    ghost use Rattle.conditions.specs.Tables.{Contents};

    ghost Value = { Contents };

    ghost use Rattle.conditions.specs.Table.{contents_of, IsSound};

    ghost view = { contents_of };

    ghost invariant = { IsSound };
}

impl Table {
    pub(crate) fn of(features: u16, rows: Vec<(u16, u32, u32)>) -> Table
        requires { KeepsRules (record { features = features; rows = rows.items }) }
        ensures { result ≡ record { features = features; rows = rows.items } }
    {
        Table { features, rows }
    }

    /// The rows in their order.
    pub fn rows(&self) -> &[(u16, u32, u32)]
        ensures rows { result.now ≡ self.now.rows }
        ensures rules { KeepsRules self.now }
    {
        let _invariant = &self.features;
        self.rows.as_slice()
    }

    /// The truth of the identifier's function at a world.
    pub fn at(&self, id: u32, world: &[bool]) -> bool
        requires there { id < length self.now.rows + 2 }
        requires places { length world.now ≡ self.now.features }
        ensures { result ≡ value (nodes_of self.now.rows) id (world_of world.now) }
    {
        let mut id = id;
        while id >= 2 {
            let (variable, low, high) = self.rows[id as usize - 2];
            id = if world[usize::from(variable)] {
                high
            } else {
                low
            };
        }
        id == 1
    }
}

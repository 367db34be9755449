//! Conditions over one world, each its truth there.

ghost use Rattle.std.specs.Prelude.{◌≡◌, ◌≤◌, length};
ghost use Rattle.meaning.specs.Counts.{counted};

use crate::stops::NodeLimit;
use crate::worlds::Worlds;

/// The given world alone. A condition is its truth there, so no call is ever refused.
#[derive(Drop)]
pub struct One<'a> {
    world: &'a [bool],
    asked: u64,
    ghost fits: { length world.now ≤ 256 },
}

impl<'a> One<'a> {
    ghost use Rattle.worlds.specs.OneWorld.{HasOnlyWorld};

    /// The conditions over the one world that is given, of at most 256 features.
    pub fn new(world: &'a [bool]) -> One<'a>
        requires { length world.now ≤ 256 }
        ensures only { HasOnlyWorld world.now (⟦<One<'a> as Worlds>⟧.algebra result) }
        ensures asked { (⟦<One<'a> as Worlds>⟧.algebra result).asked ≡ 0 }
    {
        One { world, asked: 0 }
    }
}

impl<'a> Worlds for One<'a> {
    ghost use Rattle.worlds.specs.OneWorld.{one_world};

    type C = bool;

    ghost algebra = { λ s. one_world s.world.now s.asked };

    fn count(&self) -> u16 {
        self.world.len() as u16
    }

    fn always(&self) -> bool {
        true
    }

    fn never(&self) -> bool {
        false
    }

    fn feature(&mut self, f: u16) -> Result<bool, NodeLimit> {
        self.asked = one_more(self.asked);
        Ok(self.world[usize::from(f)])
    }

    fn both(&mut self, a: bool, b: bool) -> Result<bool, NodeLimit> {
        self.asked = one_more(self.asked);
        Ok(a && b)
    }

    fn either(&mut self, a: bool, b: bool) -> Result<bool, NodeLimit> {
        self.asked = one_more(self.asked);
        Ok(a || b)
    }

    fn without(&mut self, a: bool, b: bool) -> Result<bool, NodeLimit> {
        self.asked = one_more(self.asked);
        Ok(a && !b)
    }

    fn is_never(&self, a: bool) -> bool {
        !a
    }

    fn same(&self, a: bool, b: bool) -> bool {
        a == b
    }

    fn at(&self, a: bool, world: &[bool]) -> bool {
        world == self.world && a
    }

    fn pick(&self, a: bool, out: &mut [bool]) -> bool {
        if a {
            out.copy_from_slice(self.world);
        }
        a
    }

    fn asked(&self) -> u64 {
        self.asked
    }
}

/// The count after one more call. It stands still at its greatest value.
fn one_more(count: u64) -> u64
    ensures { result ≡ counted count 1 }
{
    count.saturating_add(1)
}

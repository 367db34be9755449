//! What holds at one world.

ghost use Rattle.std.specs.Prelude.{◌≡◌, Bool};

/// One world, which tells of each condition whether it holds there.
pub trait Truth {
    type C: Copy;

    /// The conditions that hold.
    ghost holds: { Self → Self.C → Bool };

    fn at(&self, condition: Self::C) -> bool
        ensures { result ≡ holds self.now condition };
}

/// Conditions that are their own truth at the world.
pub struct Told;

impl Truth for Told {
    type C = bool;

    ghost holds = { λ _ condition. condition };

    fn at(&self, condition: bool) -> bool {
        condition
    }
}

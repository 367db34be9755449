//! The operations on conditions, and their laws.

ghost use Rattle.std.specs.Prelude.{◌≡◌, ◌<◌, ◌↔◌, ◌&&◌, ◌||◌, not, true, false, length, IsTrue, IfOk, IfErr};
ghost use Rattle.std.specs.Bool.{OnTrue, OnFalse};
ghost use Rattle.meaning.specs.Texts.{holds_at};
ghost use Rattle.meaning.specs.Counts.{counted};
ghost use Rattle.meaning.specs.Reports.{IsLeast};
ghost use Rattle.worlds.specs.Algebra.{Algebra, Kept, HoldsWhere, HoldsNowhere, HoldAlike, IsRefusal, has, refusals_after};

use crate::stops::NodeLimit;

/// Conditions over a set of worlds, each a list with one truth value per feature.
///
/// The *growing* calls `feature`, `both`, `either` and `without` make conditions. Each counts once in `asked`, keeps every live condition,
/// also where it is refused, and is refused only with [`NodeLimit`], which `refused` counts. No other call changes anything.
/// No call lists the worlds.
pub trait Worlds {
    type C: Copy;

    /// The conditions as they are.
    ghost algebra: { Self → Algebra Self.C };

    /// The number of features, which is the length of each world.
    fn count(&self) -> u16
        ensures count { result ≡ (algebra self.now).count }
        ensures lengths { (x : _) → (algebra self.now).is_world x ≡ true → length x ≡ (algebra self.now).count };

    /// Holds at every world.
    fn always(&self) -> Self::C
        ensures { HoldsWhere (algebra self.now) result (λ _. true) };

    /// Holds at no world.
    fn never(&self) -> Self::C
        ensures { HoldsWhere (algebra self.now) result (λ _. false) };

    /// Holds where the feature is true.
    fn feature(&mut self, f: u16) -> Result<Self::C, NodeLimit>
        requires { f < (algebra self.old).count }
        ensures kept { Kept (algebra self.old) (algebra self.new) }
        ensures asked { (algebra self.new).asked ≡ counted (algebra self.old).asked 1 }
        ensures refusals { (algebra self.new).refused ≡ refusals_after result (algebra self.old).refused }
        ensures made { IfOk result (λ c. HoldsWhere (algebra self.new) c (λ x. holds_at x f)) }
        ensures refused { IfErr result (IsRefusal (algebra self.old) (algebra self.new)) };

    /// Holds where both hold.
    fn both(&mut self, a: Self::C, b: Self::C) -> Result<Self::C, NodeLimit>
        requires a_live { (algebra self.old).live a }
        requires b_live { (algebra self.old).live b }
        ensures kept { Kept (algebra self.old) (algebra self.new) }
        ensures asked { (algebra self.new).asked ≡ counted (algebra self.old).asked 1 }
        ensures refusals { (algebra self.new).refused ≡ refusals_after result (algebra self.old).refused }
        ensures made { IfOk result (λ c. HoldsWhere (algebra self.new) c (λ x. (algebra self.old).holds a x && (algebra self.old).holds b x)) }
        ensures refused { IfErr result (IsRefusal (algebra self.old) (algebra self.new)) };

    /// Holds where one of the two holds, or both do.
    fn either(&mut self, a: Self::C, b: Self::C) -> Result<Self::C, NodeLimit>
        requires a_live { (algebra self.old).live a }
        requires b_live { (algebra self.old).live b }
        ensures kept { Kept (algebra self.old) (algebra self.new) }
        ensures asked { (algebra self.new).asked ≡ counted (algebra self.old).asked 1 }
        ensures refusals { (algebra self.new).refused ≡ refusals_after result (algebra self.old).refused }
        ensures made { IfOk result (λ c. HoldsWhere (algebra self.new) c (λ x. (algebra self.old).holds a x || (algebra self.old).holds b x)) }
        ensures refused { IfErr result (IsRefusal (algebra self.old) (algebra self.new)) };

    /// Holds where the first holds and the second doesn't.
    fn without(&mut self, a: Self::C, b: Self::C) -> Result<Self::C, NodeLimit>
        requires a_live { (algebra self.old).live a }
        requires b_live { (algebra self.old).live b }
        ensures kept { Kept (algebra self.old) (algebra self.new) }
        ensures asked { (algebra self.new).asked ≡ counted (algebra self.old).asked 1 }
        ensures refusals { (algebra self.new).refused ≡ refusals_after result (algebra self.old).refused }
        ensures made { IfOk result (λ c. HoldsWhere (algebra self.new) c (λ x. (algebra self.old).holds a x && not ((algebra self.old).holds b x))) }
        ensures refused { IfErr result (IsRefusal (algebra self.old) (algebra self.new)) };

    /// Whether no world has it.
    fn is_never(&self, a: Self::C) -> bool
        requires { (algebra self.now).live a }
        ensures { IsTrue result ↔ HoldsNowhere (algebra self.now) a };

    /// Whether the two hold at the same worlds.
    fn same(&self, a: Self::C, b: Self::C) -> bool
        requires a_live { (algebra self.now).live a }
        requires b_live { (algebra self.now).live b }
        ensures { IsTrue result ↔ HoldAlike (algebra self.now) a b };

    /// Whether the list is a world that has the condition.
    fn at(&self, a: Self::C, world: &[bool]) -> bool
        requires live { (algebra self.now).live a }
        requires length { length world.now ≡ (algebra self.now).count }
        ensures { result ≡ has (algebra self.now) a world.now };

    /// Writes the least world that has the condition, if there is one: false before true, the first feature first.
    /// Where there is none, `out` stays as it was.
    fn pick(&self, a: Self::C, out: &mut [bool]) -> bool
        requires live { (algebra self.now).live a }
        requires length { length out.old ≡ (algebra self.now).count }
        ensures found { OnTrue result (IsLeast (algebra self.now).count (has (algebra self.now) a) out.new) }
        ensures never { OnFalse result (HoldsNowhere (algebra self.now) a) }
        ensures unchanged { OnFalse result (out.new ≡ out.old) };

    /// How many growing calls were made. The count stands still at the greatest u64.
    fn asked(&self) -> u64
        ensures { result ≡ (algebra self.now).asked };
}

ghost use Rattle.std.specs.Prelude.{◌≡◌, ◌<◌, ◌≤◌, ◌+◌, ◌^◌, ℕ, List, Option, Some, length, take, IfOk, OnOk, OnErr};
ghost use Rattle.meaning.specs.Counts.{counted, Rose, NoFewer, appended};
ghost use Rattle.outside.specs.Pieces.{IsPart, IsPlace};

use std::alloc::{AllocError, AllocFailed};

/// A read or a write failed. The count of the shelf's name or of the sink tells that it did.
#[derive(Clone, Copy, Debug, PartialEq, Eq)]
pub struct Failed;

/// There is no memory for what the call needs.
#[derive(Clone, Copy, Debug, PartialEq, Eq)]
pub struct NoMemory;

impl From<AllocError> for NoMemory {
    fn from(_: AllocError) -> NoMemory {
        NoMemory
    }
}

impl<T: Drop> From<AllocFailed<T>> for NoMemory {
    fn from(_: AllocFailed<T>) -> NoMemory {
        NoMemory
    }
}

/// Files under names, each read piece by piece.
///
/// A failure under one name licenses no answer about another file: it is counted under its name.
/// A count stands still at the greatest `u64`.
pub trait Shelf {
    /// The bytes of a file, where the shelf tells them. They never change.
    ghost holds: { Self → List ℕ → Option (List ℕ) };

    /// How often a read under a name failed. It never falls.
    ghost faults: { Self → List ℕ → ℕ };

    /// The place after the bytes that the last read gave: 0 at first and after a failure.
    ghost next: { Self → ℕ };

    /// How many bytes were given under a name. It never falls.
    ghost given: { Self → List ℕ → ℕ };

    /// Reads the bytes of a file from a place on into the front of `buf`, and answers how many.
    /// `Ok(0)` is the end. A read begins at place 0, or goes on where the last one ended.
    fn part(&mut self, name: &str, from: u64, buf: &mut [u8]) -> Result<usize, Failed>
        requires room { 0 < length buf.old }
        requires place { IsPlace from (next self.old) }
        requires fits { from + length buf.old < 2 ^ 64 }
        ensures count { IfOk result (λ n. n ≤ length buf.new) }
        ensures bytes { IfOk result (λ n. (file : List ℕ) → holds self.old name.now ≡ Some file
            → IsPart file from n buf.new) }
        ensures goes_on { IfOk result (λ n. next self.new ≡ from + n) }
        ensures more_given { IfOk result (λ n. given self.new name.now ≡ counted (given self.old name.now) n) }
        ensures fault { OnErr result (Rose (faults self.old name.now) (faults self.new name.now)) }
        ensures starts_again { OnErr result (next self.new ≡ 0) }
        ensures no_fewer_faults { NoFewer (faults self.old) (faults self.new) }
        ensures no_less_given { NoFewer (given self.old) (given self.new) }
        ensures same_files { holds self.new ≡ holds self.old };
}

/// Takes bytes, piece by piece.
pub trait Sink {
    /// The bytes so far, where the sink tells them. A failed put leaves them as they were.
    ghost got: { Self → Option (List ℕ) };

    /// How often a put failed. It never falls.
    ghost faults: { Self → ℕ };

    /// Takes a front of `piece`, at least one byte, and answers how many.
    fn put(&mut self, piece: &[u8]) -> Result<usize, Failed>
        requires { 0 < length piece.now }
        ensures some { IfOk result (λ n. 0 < n) }
        ensures count { IfOk result (λ n. n ≤ length piece.now) }
        ensures taken { IfOk result (λ n. got self.new ≡ appended (got self.old) (take n piece.now)) }
        ensures kept { OnErr result (got self.new ≡ got self.old) }
        ensures fault { OnErr result (Rose (faults self.old) (faults self.new)) }
        ensures no_fewer_faults { faults self.old ≤ faults self.new };
}

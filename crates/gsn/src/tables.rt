//! Tables with an entry for each node.

ghost use Rattle.std.specs.Prelude.{◌≡◌, IfOk, replicate, false};

use doc_tree::NoMemory;
use std::alloc::Global;

pub fn zeros(alloc: Global, len: usize) -> Result<Vec<usize>, NoMemory>
    ensures { IfOk result (λ v. v.items ≡ replicate len 0) }
{
    vec![in alloc; 0; len].map_err(|_| NoMemory)
}

pub fn no_marks(alloc: Global, len: usize) -> Result<Vec<bool>, NoMemory>
    ensures { IfOk result (λ v. v.items ≡ replicate len false) }
{
    vec![in alloc; false; len].map_err(|_| NoMemory)
}

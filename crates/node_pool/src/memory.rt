//! Tables that take all their memory when they are made.

ghost use Rattle.std.specs.Prelude.{◌≡◌, ◌<◌, ◌≤◌, ◌++◌, ◌∷◌, [], IfOk, replicate, vec_len, vec_capacity};

use std::alloc::Global;

/// The memory of a pool was refused.
#[derive(Clone, Copy, PartialEq, Eq, Debug)]
pub struct NoMemory;

pub fn empty_with_room<T: Drop>(alloc: Global, room: usize) -> Result<Vec<T>, NoMemory>
    ensures items { IfOk result (λ v. v.items ≡ []) }
    ensures capacity { IfOk result (λ v. room ≤ vec_capacity v) }
{
    Vec::with_capacity(alloc, room).map_err(|_| NoMemory)
}

/// Appends within the capacity, so that no memory is taken.
pub fn append<T: Drop>(items: &mut Vec<T>, item: T)
    requires { vec_len items.old < vec_capacity items.old }
    ensures items { items.new.items ≡ items.old.items ++ item ∷ [] }
    ensures capacity { vec_capacity items.old ≤ vec_capacity items.new }
{
    match items.push(item) {
        Ok(()) => {}
        Err(_) => unreachable!(),
    }
}

/// Appends so many zeros within the capacity.
pub fn fill_with_zeros(items: &mut Vec<u32>, count: usize)
    requires empty { items.old.items ≡ [] }
    requires room { count ≤ vec_capacity items.old }
    ensures items { items.new.items ≡ replicate count 0 }
    ensures capacity { vec_capacity items.old ≤ vec_capacity items.new }
{
    for _ in 0..count {
        append(items, 0);
    }
}

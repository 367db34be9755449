//! The keys of nodes.

ghost use Rattle.std.specs.Prelude.{◌≡◌, ◌++◌, [], ◌∷◌, map, decimal, IfOk, OnOk, string_bytes};
ghost use Rattle.std.specs.List.{join_with_byte};
ghost use Rattle.lifting.specs.Sites.{branch_front};
ghost use Rattle.lifting.specs.TextParts.{point_before};

use doc_tree::NoMemory;
use std::alloc::Global;

/// What the keys of the nodes below a node begin with.
pub fn below_key(alloc: Global, key: &str) -> Result<String, NoMemory>
    ensures { IfOk result (λ s. string_bytes s ≡ key.now ++ 47 ∷ []) }
{
    Ok(format!(in alloc; "{key}/")?)
}

/// A point, but for the first of some numbers.
fn separate(text: &mut String, first: bool) -> Result<(), NoMemory>
    ensures { OnOk result (string_bytes text.new ≡ string_bytes text.old ++ point_before first) }
{
    if !first {
        text.push_str(".")?;
    }
    Ok(())
}

/// Numbers with points between them.
fn joined(alloc: Global, numbers: &[u16]) -> Result<String, NoMemory>
    ensures { IfOk result (λ s. string_bytes s ≡ join_with_byte 46 (map decimal numbers.now)) }
{
    let mut text = String::new(alloc);
    let mut first = true;
    'numbers: for number in numbers {
        separate(&mut text, first)?;
        let digits = format!(in alloc; "{number}")?;
        text.push_str(digits.as_str())?;
        first = false;
    }
    Ok(text)
}

/// What the keys of the nodes in the branch of an answer begin with.
pub fn branch_key(alloc: Global, key: &str, answer: &[u16]) -> Result<String, NoMemory>
    ensures { IfOk result (λ s. string_bytes s ≡ branch_front key.now answer.now) }
{
    let numbers = joined(alloc, answer)?;
    let numbers = numbers.as_str();
    Ok(format!(in alloc; "{key}/{numbers}:")?)
}

/// The key of a node by its number.
pub fn numbered_key(alloc: Global, front: &str, number: usize) -> Result<String, NoMemory>
    ensures { IfOk result (λ s. string_bytes s ≡ front.now ++ decimal number) }
{
    Ok(format!(in alloc; "{front}{number}")?)
}

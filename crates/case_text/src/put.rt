//! Bytes behind others.

ghost use Rattle.std.specs.Prelude.{◌≡◌, ◌++◌, OnOk};

use doc_tree::NoMemory;

pub fn put(out: &mut Vec<u8>, bytes: &[u8]) -> Result<(), NoMemory>
    ensures { OnOk result (out.new.items ≡ out.old.items ++ bytes.now) }
{
    out.extend_from_slice(bytes)?;
    Ok(())
}

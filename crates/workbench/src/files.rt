//! The files of a task, each read whole and within its limit.

ghost use Rattle.std.specs.Prelude.{◌≡◌, ◌<◌, ◌^◌, ◌∷◌, [], IfOk, IfErr};
ghost use Rattle.meaning.specs.Counts.{NoFewer};
ghost use Rattle.meaning.specs.TopCall.{AgreeWith};
ghost use Rattle.meaning.specs.Words as words;
ghost use Rattle.workbench.specs.Run.{shelf_of, file_of, IsFileOf, StopsFile, StopsFiles};

use crate::status::Status;
use outside::{ReadStop, Shelf, read_whole};
use std::alloc::Global;

/// The most bytes of a bundle file.
pub const BUNDLE_LIMIT: u64 = 16_777_216;

/// The most bytes of a case file.
pub const CASE_LIMIT: u64 = 67_108_864;

/// The most bytes of a configuration file.
pub const CONFIGURATION_LIMIT: u64 = 1_048_576;

/// Whether a file of this name is read as TOML.
pub fn is_toml(name: &str) -> bool
    ensures { result ≡ words.is_toml name.now }
{
    let bytes = name.as_bytes();
    let suffix = b".toml".as_slice();
    &bytes[bytes.len().saturating_sub(suffix.len())..] == suffix
}

/// The bytes of the file with this number among those of the task.
pub fn read_file<F: Shelf>(
    alloc: Global,
    shelf: &mut F,
    name: &str,
    number: u8,
    limit: u64,
) -> Result<Vec<u8>, Status>
    requires { limit < 2 ^ 32 }
    ensures read { IfOk result (λ v. IsFileOf (F.holds shelf.old name.now) limit v.items) }
    ensures stopped { IfErr result (StopsFile number (file_of name.now limit)
        (shelf_of (F.holds shelf.old) (F.faults shelf.old) (F.next shelf.old) (F.given shelf.old))
        (shelf_of (F.holds shelf.new) (F.faults shelf.new) (F.next shelf.new) (F.given shelf.new))) }
    ensures no_fewer_faults { NoFewer (F.faults shelf.old) (F.faults shelf.new) }
    ensures no_less_given { NoFewer (F.given shelf.old) (F.given shelf.new) }
    ensures same_files { F.holds shelf.new ≡ F.holds shelf.old }
{
    match read_whole(alloc, shelf, name, limit) {
        Ok(bytes) => Ok(bytes),
        Err(ReadStop::Failed) => Err(Status::ReadFault(number)),
        Err(ReadStop::TooLong) => Err(Status::TooLong(number)),
        Err(ReadStop::NoMemory) => Err(Status::NoMemory),
    }
}

/// The bytes of a task's two files, the second of which is a configuration.
pub fn read_two_files<F: Shelf>(
    alloc: Global,
    shelf: &mut F,
    first: &str,
    limit: u64,
    second: &str,
) -> Result<(Vec<u8>, Vec<u8>), Status>
    requires { limit < 2 ^ 32 }
    ensures read { IfOk result (λ r. AgreeWith (shelf_of (F.holds shelf.old) (F.faults shelf.old) (F.next shelf.old) (F.given shelf.old))
        (file_of first.now limit ∷ file_of second.now 1048576 ∷ []) (r.0.items ∷ r.1.items ∷ [])) }
    ensures stopped { IfErr result (StopsFiles (file_of first.now limit ∷ file_of second.now 1048576 ∷ [])
        (shelf_of (F.holds shelf.old) (F.faults shelf.old) (F.next shelf.old) (F.given shelf.old))
        (shelf_of (F.holds shelf.new) (F.faults shelf.new) (F.next shelf.new) (F.given shelf.new))) }
    ensures no_fewer_faults { NoFewer (F.faults shelf.old) (F.faults shelf.new) }
    ensures no_less_given { NoFewer (F.given shelf.old) (F.given shelf.new) }
    ensures same_files { F.holds shelf.new ≡ F.holds shelf.old }
{
    let bytes = read_file(alloc, shelf, first, 0, limit)?;
    let chosen = read_file(alloc, shelf, second, 1, CONFIGURATION_LIMIT)?;
    Ok((bytes, chosen))
}

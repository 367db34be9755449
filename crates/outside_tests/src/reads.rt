//! Files in memory that are read whole, or the cause is told.

use outside::{MemShelf, ReadStop, read_whole};
use std::alloc::Global;
use std::test::Fail;

const FAILED: Option<ReadStop> = Some(ReadStop::Failed);

const TOO_LONG: Option<ReadStop> = Some(ReadStop::TooLong);

/// As many bytes, of which no two neighbours are equal.
pub fn file_of(alloc: Global, length: u32) -> Result<Vec<u8>, Fail> {
    let mut bytes = Vec::new(alloc);
    for at in 0..length {
        bytes.push((at % 251) as u8)?;
    }
    Ok(bytes)
}

/// Puts the bytes under the name of other bytes, beside another file.
fn fill(shelf: &mut MemShelf, bytes: &[u8]) -> Result<(), Fail> {
    shelf.add("other", b"of another file")?;
    shelf.add("file", b"what was there before")?;
    shelf.add("file", bytes)?;
    Ok(())
}

/// Why the bytes are not read whole, and why an unknown name is not. `Some(None)` is a whole file of the same bytes.
fn told(
    alloc: Global,
    shelf: &mut MemShelf,
    file: &[u8],
    limit: u32,
) -> (Option<Option<ReadStop>>, Option<ReadStop>) {
    let first = match read_whole(alloc, shelf, "file", u64::from(limit)) {
        Ok(bytes) => {
            if bytes.as_slice() == file {
                Some(None)
            } else {
                None
            }
        }
        Err(stop) => Some(Some(stop)),
    };
    (first, read_whole(alloc, shelf, "none", 9).err())
}

/// What comes of a file of that length under that limit, where the read with that number fails.
fn read(
    alloc: Global,
    length: u32,
    limit: u32,
    failing: u64,
) -> Result<(Option<Option<ReadStop>>, Option<ReadStop>), Fail> {
    let file = file_of(alloc, length)?;
    let mut shelf = MemShelf::new([failing].to_vec(alloc)?);
    fill(&mut shelf, file.as_slice())?;
    Ok(told(alloc, &mut shelf, file.as_slice(), limit))
}

/// An unknown name is never read. A piece has at most 65,536 bytes, and a file in memory gives each read as much as it can.
#[test]
fn files_are_read_whole_or_the_cause_is_told(rt: HostRuntime) -> Result<(), Fail> {
    let whole = (Some(None), FAILED);
    let failed = (Some(FAILED), FAILED);
    let too_long = (Some(TOO_LONG), FAILED);
    let alloc = rt.alloc();
    assert_eq!(rt;
        (
            read(alloc, 0, 0, 9)?,
            read(alloc, 0, 0, 0)?,
            read(alloc, 1, 0, 9)?,
            read(alloc, 5, 4_294_967_295, 2)?,
            read(alloc, 65_536, 65_536, 9)?,
            read(alloc, 65_536, 65_535, 9)?,
        ),
        (whole, failed, too_long, whole, whole, too_long)
    );
    assert_eq!(rt;
        (
            read(alloc, 70_000, 70_000, 0)?,
            read(alloc, 70_000, 70_000, 1)?,
            read(alloc, 70_000, 70_000, 2)?,
            read(alloc, 70_000, 70_000, 3)?,
            read(alloc, 70_000, 69_999, 2)?,
        ),
        (failed, failed, failed, whole, too_long)
    );
    Ok(())
}

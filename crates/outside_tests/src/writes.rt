//! Sinks in memory that get all bytes, or a prefix of them.

use crate::reads::file_of;
use outside::{MemSink, write_whole};
use std::alloc::Global;
use std::test::Fail;

/// Whether all of these bytes were written, and how many came through where those are the first, with the most that a put takes, the room, and
/// the number of the put that fails.
fn written(
    alloc: Global,
    bytes: &[u8],
    most: usize,
    room: usize,
    failing: u64,
) -> Result<(bool, Option<usize>), Fail> {
    if most == 0 {
        return Ok((false, None));
    }
    let mut sink = MemSink::new(alloc, room, most, [failing].to_vec(alloc)?)?;
    let done = write_whole(&mut sink, bytes).is_ok();
    let through = sink.bytes().len();
    let is_front = Some(sink.bytes()) == bytes.get(..through);
    Ok((done, if is_front { Some(through) } else { None }))
}

#[test]
fn sinks_get_all_bytes_or_a_prefix(rt: HostRuntime) -> Result<(), Fail> {
    let alloc = rt.alloc();
    let file = file_of(alloc, 25)?;
    let bytes = file.as_slice();
    assert_eq!(rt;
        (
            written(alloc, bytes, 1, 25, 99)?,
            written(alloc, bytes, 1, 25, 24)?,
            written(alloc, bytes, 10, 25, 99)?,
            written(alloc, bytes, 10, 25, 0)?,
            written(alloc, bytes, 10, 25, 1)?,
            written(alloc, bytes, 10, 25, 2)?,
        ),
        (
            (true, Some(25)),
            (false, Some(24)),
            (true, Some(25)),
            (false, Some(0)),
            (false, Some(10)),
            (false, Some(20)),
        )
    );
    assert_eq!(rt;
        (
            written(alloc, bytes, 10, 25, 3)?,
            written(alloc, bytes, 10, 24, 99)?,
            written(alloc, bytes, 10, 9, 99)?,
            written(alloc, bytes, 100, 25, 1)?,
            written(alloc, b"", 1, 0, 0)?,
        ),
        (
            (true, Some(25)),
            (false, Some(20)),
            (false, Some(0)),
            (true, Some(25)),
            (true, Some(0)),
        ),
        "and no bytes need no put"
    );
    Ok(())
}

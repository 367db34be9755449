//! Real files and a real stream.

use outside::{FileShelf, ReadStop, StreamSink, read_whole, write_whole};
use std::test::Fail;
use std::{fs, io};

#[test]
fn real_files_are_read_and_copied(rt: HostRuntime) -> Result<(), Fail> {
    let text = b"{\"bundle\":1}\n";
    fs::write(&rt, "small.json", text)?;
    let mut shelf = FileShelf::new(&rt);
    let bytes = read_whole(rt.alloc(), &mut shelf, "small.json", 13)?;
    assert_eq!(rt; bytes.as_slice(), text.as_slice());
    assert_eq!(rt;
        (
            read_whole(rt.alloc(), &mut shelf, "small.json", 12).err(),
            read_whole(rt.alloc(), &mut shelf, "none.json", 13).err(),
        ),
        (Some(ReadStop::TooLong), Some(ReadStop::Failed))
    );
    let mut out = StreamSink::new(io::writer(&rt));
    assert_eq!(rt; write_whole(&mut out, bytes.as_slice()), Ok(()));
    fs::remove_file(&rt, "small.json")?;
    Ok(())
}

//! Runs of the top call over real files and streams, as the program makes them.

use super::in_memory::BUNDLE;
use conditions::Diagrams;
use outside::{FileShelf, MemSink, StreamSink};
use std::test::Fail;
use std::{fs, io};
use workbench::run;

/// Builds the bundle in a real file, and answers the status's number and what was said.
fn built<W: io::Write + Drop>(
    rt: &HostRuntime,
    bundle: &str,
    out: W,
) -> Result<(u8, Vec<u8>), Fail> {
    let mut words = Vec::new(rt.alloc());
    for word in ["plcase", "build", bundle] {
        words.push(String::from_str(rt.alloc(), word)?)?;
    }
    let mut shelf = FileShelf::new(rt);
    let mut out = StreamSink::new(out);
    let mut err = MemSink::new(rt.alloc(), 1_000, 100, Vec::new(rt.alloc()))?;
    let mut diagrams = Diagrams::shut();
    let status = run(
        rt.alloc(),
        &words,
        &mut shelf,
        &mut out,
        &mut err,
        &mut diagrams,
    );
    Ok((status.code(), err.bytes().to_vec(rt.alloc())?))
}

#[test]
fn real_faults_have_their_status(rt: HostRuntime) -> Result<(), Fail> {
    let (code, said) = built(&rt, "none.json", io::writer(&rt))?;
    assert_eq!(rt; code, 13, "a file that is not there");
    assert_eq!(rt; said.as_slice(), b"plcase: file 0 not read\n".as_slice());
    let (code, _) = built(&rt, ".", io::writer(&rt))?;
    assert_eq!(rt; code, 13, "a folder");
    fs::write(&rt, "real.json", BUNDLE.as_bytes())?;
    let full = fs::create(&rt, "/dev/full")?;
    let (code, said) = built(&rt, "real.json", full)?;
    assert_eq!(rt; code, 14, "a device with no room");
    assert_eq!(rt; said.as_slice(), b"plcase: output not written\n".as_slice());
    fs::remove_file(&rt, "real.json")?;
    Ok(())
}

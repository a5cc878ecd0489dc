//! A real file, saved, loaded and removed.

use ac_io::{Files, HostFiles, HostOut, LoadFault, MemSink, SaveFault, Sink};
use std::alloc::Global;
use std::fs;
use std::test::Fail;

/// Adds the contents of a name to a sink.
fn show<F: Files, S: Sink>(
    alloc: Global,
    files: &mut F,
    out: &mut S,
    name: &str,
) -> Result<(), Fail> {
    let found = files.load(alloc, name, 5000)?;
    out.put(found.as_slice())?;
    Ok(())
}

const FILE: &str = "ac_io_test_file";

#[test]
fn the_host_keeps_a_real_file(rt: HostRuntime) -> Result<(), Fail> {
    let mut files = HostFiles::new(&rt);
    files.save(FILE, b"one\ntwo\n")?;
    let found = files.load(rt.alloc(), FILE, 8)?;
    assert_eq!(rt; found.as_slice(), b"one\ntwo\n".as_slice());
    let long = files.load(rt.alloc(), FILE, 7);
    assert!(rt; matches!(&long, Err(LoadFault::Long)));
    let mut sink = MemSink::new(rt.alloc());
    show(rt.alloc(), &mut files, &mut sink, FILE)?;
    assert_eq!(rt; sink.bytes(), b"one\ntwo\n".as_slice());
    show(rt.alloc(), &mut files, &mut HostOut::new(&rt), FILE)?;
    fs::remove_file(&rt, FILE)?;
    let gone = files.load(rt.alloc(), FILE, 8);
    assert!(rt; matches!(&gone, Err(LoadFault::Failed)));
    let no_path = files.save("", b"x");
    assert!(rt; matches!(&no_path, Err(SaveFault::Failed)));
    Ok(())
}

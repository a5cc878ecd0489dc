//! Files and a sink in memory, with the calls that are to fail.

use ac_io::{Files, LoadFault, MemFiles, MemSink, SaveFault, Sink};
use std::test::Fail;

#[test]
fn memory_gives_back_what_it_took(rt: HostRuntime) -> Result<(), Fail> {
    let mut files = MemFiles::new(rt.alloc());
    files.add("p", b"ab")?;
    let found = files.load(rt.alloc(), "p", 2)?;
    assert_eq!(rt; found.as_slice(), b"ab".as_slice());
    files.add("p", b"abc")?;
    let long = files.load(rt.alloc(), "p", 2);
    assert!(rt; matches!(&long, Err(LoadFault::Long)));
    files.reserve("q", 3)?;
    assert!(rt; files.get("q").is_none(), "room is no contents");
    files.save("q", b"def")?;
    assert_eq!(rt; files.get("q"), Some(b"def".as_slice()));
    Ok(())
}

#[test]
fn memory_files_fail_where_they_are_asked_to(rt: HostRuntime) -> Result<(), Fail> {
    let mut files = MemFiles::new(rt.alloc());
    files.add("p", b"ab")?;
    files.fail(0)?;
    files.fail(2)?;
    let first = files.load(rt.alloc(), "p", 9);
    assert!(rt; matches!(&first, Err(LoadFault::Failed)), "call 0");
    let second = files.load(rt.alloc(), "p", 9);
    assert!(rt; second.is_ok(), "call 1");
    let third = files.save("p", b"c");
    assert!(rt; matches!(&third, Err(SaveFault::Failed)), "call 2");
    let none = files.load(rt.alloc(), "q", 9);
    assert!(rt; matches!(&none, Err(LoadFault::Failed)), "no contents");
    assert!(rt; files.save("q", b"c").is_ok(), "call 4");
    assert_eq!(rt; (files.load_faults(), files.save_faults()), (2, 1));
    Ok(())
}

/// The puts, and which of them succeed.
const PUTS: [(&str, bool); 3] = [("accepted", false), ("-", true), ("xy", false)];

#[test]
fn a_sink_in_memory_fails_where_it_is_asked_to(rt: HostRuntime) -> Result<(), Fail> {
    let mut sink = MemSink::new(rt.alloc());
    sink.reserve(3)?;
    sink.fail(0, 3)?;
    sink.fail(2, 1)?;
    sink.fail(2, 9)?;
    for (text, succeeds) in PUTS {
        let put = sink.put(text.as_bytes());
        assert_eq!(rt; put.is_ok(), succeeds, "{text}");
    }
    assert_eq!(rt; sink.bytes(), b"acc-xy".as_slice());
    assert_eq!(rt; sink.faults(), 2);
    Ok(())
}

//! Loads and puts that fail.

use crate::calls::{POLICY, certify, files};
use ac_io::{MemFiles, MemSink};
use std::test::Fail;

/// A program, the load that fails, and the code and the report of the call.
const FAULTS: [(&str, u64, u8, &str); 5] = [
    ("var a[4]; begin a[3] := 1; end", 0, 5, "read fault\n"),
    ("var a[4]; begin a[3] := 1; end", 1, 5, "read fault\n"),
    ("begin", 1, 3, "program: unexpected at 5..5\n"),
    ("var a[0]; begin end", 1, 3, "program: rule S8 at node 1\n"),
    (
        "var x; begin x := 1; end",
        1,
        3,
        "program: not built at node 2\n",
    ),
];

#[test]
fn a_failed_load_is_a_read_fault_only_where_the_file_is_needed(
    rt: HostRuntime,
) -> Result<(), Fail> {
    let alloc = rt.alloc();
    for (program, call, code, report) in FAULTS {
        let mut files = files(alloc, program.as_bytes(), POLICY.as_bytes())?;
        files.fail(call)?;
        let mut out = MemSink::new(alloc);
        let status = certify(alloc, &mut files, &mut out)?;
        assert_eq!(rt; status.code(), code, "{program}");
        assert_eq!(rt; out.bytes(), report.as_bytes(), "{program}");
    }
    let mut none = MemFiles::new(alloc);
    let status = certify(alloc, &mut none, &mut MemSink::new(alloc))?;
    assert_eq!(rt; status.code(), 5, "no files");
    Ok(())
}

#[test]
fn a_fault_of_the_sink_is_a_write_fault(rt: HostRuntime) -> Result<(), Fail> {
    let alloc = rt.alloc();
    let mut files = files(alloc, b"begin end", POLICY.as_bytes())?;
    let mut out = MemSink::new(alloc);
    out.fail(0, 3)?;
    let status = certify(alloc, &mut files, &mut out)?;
    assert_eq!(rt; status.code(), 6);
    assert_eq!(rt; out.bytes(), b"acc".as_slice());
    Ok(())
}

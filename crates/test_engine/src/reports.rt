//! The report of each program, policy and list of words.

use crate::calls::{POLICY, assert_answer, words};
use ac_engine::autocert;
use ac_io::{MemFiles, MemSink};
use std::alloc::Global;
use std::process::Abort;
use std::test::Fail;

/// Asserts the report of each row `MIDDLE | PROGRAM`: it is MIDDLE between the two texts.
fn assert_rows<R: Abort>(
    rt: &R,
    alloc: Global,
    rows: &str,
    code: u8,
    before: &str,
    after: &str,
) -> Result<(), Fail> {
    for row in rows.lines() {
        let Some((middle, program)) = row.split_once(" | ") else {
            return Err(Fail::new("no row"));
        };
        let report = format!(in alloc; "{before}{middle}{after}\n")?;
        assert_answer(
            rt,
            alloc,
            program.as_bytes(),
            POLICY.as_bytes(),
            code,
            report.as_str(),
        )?;
    }
    Ok(())
}

/// Programs that are accepted, with their conditions.
const ACCEPTED: &str = "1 | var a[4]; begin a[3] := 1; end
1 | var a[1000000000000];begin a[999999999999]:=1000000000000;end# end
1 | const k = 2; input n : 1 .. 5; var x; var b[k]; var a[4]; begin a[(3)] := (1); end
0 | begin end
0 | var a; begin end
0 | var a[2,2]; begin end
0 | const k = 1000000000000; begin end
0 | input n : -1 .. 5; begin end
0 | const k = 3; input m[k,k] : 0 .. 1; var x; begin end";

/// Programs that are refused, with the fault.
const REFUSED: &str = "unexpected at 3..3 | var
unexpected at 7..7 | var a[4
unexpected at 26..26 | var a[4]; begin a[3] := 1;
unexpected at 11..12 | begin x := ; end
unexpected at 31..34 | var a[4]; begin a[3] := 1; end end
unexpected at 16..21 | var a[4]; begin begin a[3] := 1; end
unexpected at 26..27 | var a[4]; begin a[3] := 1;; end
unexpected at 4..7 | var var a[4]; begin a[3] := 1; end
unexpected at 21..22 | var a[4]; begin a[3] = 1; end
unexpected at 4..7 | var end[4]; begin end
token at 13 | begin x := 1 ! 2; end
token at 18 | var a[4]; begin a[03] := 1; end
token at 26 | var a[4]; begin a[3] := 1 ! end
token at 6 | begin é end
rule S7 at node 1 | input n : 5 .. 4; begin end
rule S1 at node 2 | var a[4]; var a[4]; begin end
rule S2 at node 2 | var a[4]; begin b[3] := 1; end
rule S3 at node 2 | var x; begin x[0] := 1; end
rule S5 at node 2 | const k = 1; begin k := 1; end
rule S8 at node 1 | var a[0]; begin end
rule S4 at node 3 | var a[4]; begin skip; a := 1; end
not built at node 2 | var x; begin x := 1; end
not built at node 2 | var a[2,2]; begin a[0,0] := 1; end
not built at node 3 | const k = 3; var a[k]; begin a[0] := 1; end
not built at node 2 | var a[4]; begin a[3] := -1; end
not built at node 2 | var a[4]; begin a[0 + 1] := 1; end
not built at node 2 | var a[4]; begin skip; a[0] := 1; end
not built at node 5 | var a[4]; begin a[0] := 1; if 1 = 1 then a[9] := 1; end end
not built at node 9 | var a[4]; var b[4]; begin a[0] := 1; a[9] := 2; use a as r; end";

/// Programs with writes outside their arrays, with the lines of the report.
const REJECTED: [(&str, &str); 2] = [
    (
        "var a[4]; begin a[4] := 1; end",
        "rejected\nbounds: 1 of 1 conditions unproved\nunproved bounds start -> site 2 at 16..26\n",
    ),
    (
        "var a[1];var b[2];begin a[1]:=0;b[1]:=0;b[2]:=0; end",
        "rejected\nbounds: 2 of 3 conditions unproved\nunproved bounds start -> site 3 at 24..32\nunproved bounds start -> site 9 at 40..48\n",
    ),
];

#[test]
fn each_program_has_its_report(rt: HostRuntime) -> Result<(), Fail> {
    let alloc = rt.alloc();
    let assumptions =
        " conditions proved\nassumption: inputs lie in their declared ranges\nassumption: whole numbers have no bound";
    assert_rows(&rt, alloc, ACCEPTED, 0, "accepted\nbounds: ", assumptions)?;
    assert_rows(&rt, alloc, REFUSED, 3, "program: ", "")?;
    for (program, report) in REJECTED {
        assert_answer(&rt, alloc, program.as_bytes(), POLICY.as_bytes(), 1, report)?;
    }
    Ok(())
}

/// Programs that stand in no line, with the report of each.
const BYTES: [(&[u8], u8, &str); 5] = [
    (b"", 3, "program: unexpected at 0..0\n"),
    (b"begin end # \xff", 3, "program: not UTF-8 at 12\n"),
    (b"begin end # \xed\xa0\x80", 3, "program: not UTF-8 at 12\n"),
    (b"\xe2\x82", 3, "program: not UTF-8 at 0\n"),
    (
        b"# \xc3\xa9 var\nvar a[4]; begin a[3] := 1; # end\r\nend",
        0,
        "accepted\nbounds: 1 conditions proved\nassumption: inputs lie in their declared ranges\nassumption: whole numbers have no bound\n",
    ),
];

#[test]
fn bytes_of_any_kind_have_their_report(rt: HostRuntime) -> Result<(), Fail> {
    let alloc = rt.alloc();
    for (program, code, report) in BYTES {
        assert_answer(&rt, alloc, program, POLICY.as_bytes(), code, report)?;
    }
    Ok(())
}

const USAGE: &str =
    "usage: certify PROGRAM POLICY CERT [--argument FILE] [--explain] | check PROGRAM POLICY CERT | show PROGRAM POLICY | make N\n";

/// Words that have no stated form.
const NO_FORMS: [&str; 7] = [
    "",
    "certify",
    "certify p q",
    "certify p q c d",
    "verify p q c",
    "certify p q p",
    "certify p q q",
];

#[test]
fn other_words_are_usage_and_nothing_is_loaded(rt: HostRuntime) -> Result<(), Fail> {
    let alloc = rt.alloc();
    for text in NO_FORMS {
        let mut files = MemFiles::new(alloc);
        let mut out = MemSink::new(alloc);
        let words = words(alloc, text)?;
        let status = autocert(alloc, words.as_slice(), &mut files, &mut out);
        assert_eq!(rt; status.code(), 2, "{text}");
        assert_eq!(rt; out.bytes(), USAGE.as_bytes(), "{text}");
        assert_eq!(rt; files.load_faults(), 0, "{text}");
    }
    Ok(())
}

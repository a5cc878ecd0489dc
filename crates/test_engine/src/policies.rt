//! Policy files: what each selects, and why it is refused.

use crate::calls::{assert_answer, copies};
use std::test::Fail;

/// Policy files that are refused, with the fault.
const REFUSED: [(&str, &str); 28] = [
    ("version = [", "not TOML"),
    ("version = 1\nversion = 1\n", "not TOML"),
    (
        "version = 9223372036854775808\npolicies = [\"init\"]\n",
        "not TOML",
    ),
    ("zz = 1\nyy = 1\nZ = 1\n", "unknown key Z"),
    ("zz = 1\n\"\" = 1\n", "unknown key "),
    (
        "version = 1\npolicies = [\"init\"]\nrules = 1\n",
        "unknown key rules",
    ),
    ("", "missing key policies"),
    ("version = 1\n", "missing key policies"),
    ("version.a = 1\n", "missing key policies"),
    ("policies = [\"init\"]\n", "missing key version"),
    (
        "version = 2\npolicies = []\nroles = 1\nlibrary = 1\npattern = 1\n",
        "bad value library",
    ),
    (
        "version = 2\npolicies = []\nroles = 1\npattern = 1\n",
        "bad value pattern",
    ),
    (
        "version = 1\npolicies = [\"init\"]\n[pattern]\n",
        "bad value pattern",
    ),
    (
        "version = 2\npolicies = []\nroles = 1\n",
        "bad value policies",
    ),
    (
        "version = 1\npolicies = [\"init\", \"init\"]\n",
        "bad value policies",
    ),
    (
        "version = 1\npolicies = [\"other\"]\n",
        "bad value policies",
    ),
    (
        "version = 2\npolicies = [\"init\"]\nroles = 1\n",
        "bad value roles",
    ),
    (
        "version = 1\npolicies = [\"init\"]\nroles = [\"r\", \"s\", \"r\"]\n",
        "bad value roles",
    ),
    (
        "version = 1\npolicies = [\"init\"]\nroles = [\"for\"]\n",
        "bad value roles",
    ),
    ("version = 2\npolicies = [\"init\"]\n", "bad value version"),
    (
        "version = 1.0\npolicies = [\"init\"]\n",
        "bad value version",
    ),
    (
        "version = true\npolicies = [\"init\"]\n",
        "bad value version",
    ),
    (
        "version = 1\npolicies = [\"init\"]\n[[pattern]]\nzz = 1\naa = 1\n",
        "pattern 1: unknown key aa",
    ),
    (
        "version = 1\npolicies = [\"init\"]\n[[pattern]]\n",
        "pattern 1: missing key code",
    ),
    (
        "version = 1\npolicies = [\"init\"]\n[[pattern]]\ncode = 1\nhot = 1\nname = 1\n",
        "pattern 1: missing key policies",
    ),
    (
        "version = 1\npolicies = [\"init\"]\n[[pattern]]\napart = [[\"%e\"]]\ncode = 1\nhot = 1\nname = 1\npolicies = 1\n",
        "pattern 1: bad value apart",
    ),
    (
        "version = 1\npolicies = [\"init\"]\n[[pattern]]\ncode = 1\nhot = 1\nname = 1\npolicies = 1\n",
        "pattern 1: bad value code",
    ),
    (
        "version = 1\npolicies = [\"init\"]\n[[pattern]]\nname = \"p\"\npolicies = [\"init\"]\ncode = \"$x := %e;\"\nhot = \"$x\"\n",
        "pattern 1: not built",
    ),
];

#[test]
fn a_refused_policy_file_has_its_fault(rt: HostRuntime) -> Result<(), Fail> {
    let alloc = rt.alloc();
    for (policy, fault) in REFUSED {
        let report = format!(in alloc; "policy: {fault}\n")?;
        assert_answer(
            &rt,
            alloc,
            b"begin end",
            policy.as_bytes(),
            4,
            report.as_str(),
        )?;
    }
    assert_answer(
        &rt,
        alloc,
        b"begin end",
        b"version = 1 # \xff\n",
        4,
        "policy: not TOML\n",
    )?;
    Ok(())
}

/// Files that pass a limit, put together of copies of a text, with the limit.
const PASSED: [(&str, &str, usize, &str, &str); 2] = [
    ("", " ", 262_145, "", "limit: policy 262144\n"),
    (
        "version = 1\npolicies = [\"init\"]\npattern = [",
        "{},",
        65,
        "]\n",
        "limit: patterns 64\n",
    ),
];

#[test]
fn a_limit_on_policy_files_is_named_with_its_number(rt: HostRuntime) -> Result<(), Fail> {
    let alloc = rt.alloc();
    for (before, text, count, after, report) in PASSED {
        let policy = copies(alloc, before, text, count, after)?;
        assert_answer(&rt, alloc, b"begin end", policy.as_bytes(), 7, report)?;
    }
    let spaces = copies(
        alloc,
        "version = 1\npolicies = [\"init\"]",
        " ",
        262_113,
        "",
    )?;
    assert_answer(
        &rt,
        alloc,
        b"begin end",
        spaces.as_bytes(),
        0,
        "accepted\ninit: 0 conditions proved\nassumption: inputs lie in their declared ranges\nassumption: whole numbers have no bound\nassumption: a run ends at its first access outside an array\n",
    )?;
    Ok(())
}

/// Policy files that are read, and the numbers that are reported of a program with one write within its array and one
/// outside.
const SELECTED: [(&str, u8, &str); 8] = [
    (
        "version = 1\npolicies = [\"bounds\"]",
        1,
        "rejected\nbounds: 1 of 2 conditions unproved\nunproved bounds start -> site 5 at 27..37\n",
    ),
    (
        "policies = [ 'bounds', ] # only this\r\nlibrary = false\r\nversion = 0x1\r\n",
        1,
        "rejected\nbounds: 1 of 2 conditions unproved\nunproved bounds start -> site 5 at 27..37\n",
    ),
    (
        "version = 1\npolicies = [\"symm\", \"bounds\", \"init\"]\nroles = [\"covariance\"]\n",
        1,
        "rejected\ninit: 0 conditions proved\nbounds: 1 of 2 conditions unproved\nsymm: 0 conditions proved\nunproved bounds start -> site 5 at 27..37\n",
    ),
    (
        "version = 1\npolicies = [\"bounds\", \"init\"]\n",
        1,
        "rejected\ninit: 0 conditions proved\nbounds: 1 of 2 conditions unproved\nunproved bounds start -> site 5 at 27..37\n",
    ),
    (
        "version = 1\npolicies = [\"init\"]\n",
        0,
        "accepted\ninit: 0 conditions proved\nassumption: inputs lie in their declared ranges\nassumption: whole numbers have no bound\nassumption: a run ends at its first access outside an array\n",
    ),
    (
        "version = 1\npolicies = [\"symm\"]\nroles = [\"covariance\"]\n",
        0,
        "accepted\nsymm: 0 conditions proved\nassumption: inputs lie in their declared ranges\nassumption: whole numbers have no bound\nassumption: a run ends at its first access outside an array\n",
    ),
    (
        "version = 1\npolicies = [\"symm\", \"init\"]\npattern = []\n",
        0,
        "accepted\ninit: 0 conditions proved\nsymm: 0 conditions proved\nassumption: inputs lie in their declared ranges\nassumption: whole numbers have no bound\nassumption: a run ends at its first access outside an array\n",
    ),
    (
        "\u{feff}version = 1\npolicies = [\"init\"]\n",
        0,
        "accepted\ninit: 0 conditions proved\nassumption: inputs lie in their declared ranges\nassumption: whole numbers have no bound\nassumption: a run ends at its first access outside an array\n",
    ),
];

#[test]
fn a_program_is_judged_by_what_the_file_selects(rt: HostRuntime) -> Result<(), Fail> {
    let alloc = rt.alloc();
    for (policy, code, report) in SELECTED {
        assert_answer(
            &rt,
            alloc,
            b"var a[4]; begin a[3] := 1; a[4] := 1; end",
            policy.as_bytes(),
            code,
            report,
        )?;
    }
    assert_answer(
        &rt,
        alloc,
        b"begin end",
        b"version = 1\npolicies = [\"init\", \"bounds\", \"symm\"]\nroles = [\"covariance\"]\n",
        0,
        "accepted\ninit: 0 conditions proved\nbounds: 0 conditions proved\nsymm: 0 conditions proved\nassumption: inputs lie in their declared ranges\nassumption: whole numbers have no bound\n",
    )?;
    Ok(())
}

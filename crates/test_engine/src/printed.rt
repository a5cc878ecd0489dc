//! The printed layout, and where a node stands.

use ac_parse::{parse, print};
use ac_tree::{Name, NodeId, positions};
use std::test::Fail;

/// Programs with their print. The first is that of the page on the language.
const PRINTS: [(&str, &str); 2] = [
    (
        "const n = 8;\ninput a[n] : -100 .. 100;\nvar s[n];\nvar i;\nbegin\n  s[0] := a[0];\n  for i := 1 to n - 1 do\n    s[i] := s[i - 1] + a[i];\n  end\n  use s as sums;\nend\n",
        "const n = 8;\ninput a[n] : -100 .. 100;\nvar s[n];\nvar i;\nbegin\n  s[0] := a[0];\n  for i := 1 to n - 1 do\n    s[i] := s[i - 1] + a[i];\n  end\n  use s as sums;\nend\n",
    ),
    (
        "var a[4]; begin a[3] := 1; end",
        "var a[4];\nbegin\n  a[3] := 1;\nend\n",
    ),
];

#[test]
fn a_program_is_printed_in_the_layout(rt: HostRuntime) -> Result<(), Fail> {
    let alloc = rt.alloc();
    for (text, layout) in PRINTS {
        let program = parse(alloc, text.as_bytes())?;
        assert_eq!(rt; print(alloc, &program)?.as_str(), layout);
    }
    Ok(())
}

#[test]
#[tactic(auto, using(ac_parse::proofs::Counted::few_nodes))]
fn an_assignment_stands_in_the_body_before_its_index_and_value(
    rt: HostRuntime,
) -> Result<(), Fail> {
    let alloc = rt.alloc();
    let program = parse(alloc, b"var a[4]; begin a[3] := 1; end")?;
    let positions = positions(alloc, &program)?;
    let Some(position) = positions.get(2) else {
        return Err(Fail::new("no node 2"));
    };
    assert_eq!(rt; position.parent, NodeId(0));
    assert_eq!(rt; (position.block, position.place), (1, 0));
    assert_eq!(rt; position.last, NodeId(4));
    assert_eq!(rt; Name::new(alloc, "a")?.text(), "a");
    Ok(())
}

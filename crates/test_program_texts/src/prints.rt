//! Texts of programs, and the layout in which they are printed.
use ac_parse::{parse, print};

const PRINTS: [(&[u8], &str); 6] = [
    (b"begin end", "begin\nend\n"),
    (
        b"var a[4]; begin a[3] := 1; end",
        "var a[4];\nbegin\n  a[3] := 1;\nend\n",
    ),
    (
        b"const M=-2 ;input g :0 .. 3;input d [g,5]:- 9.. -9; var u; begin end",
        "const M = -2;\ninput g : 0 .. 3;\ninput d[g,5] : -9 .. -9;\nvar u;\nbegin\nend\n",
    ),
    (
        b"begin x:=-(-1)*-2+y[ c [(z)],(1 -2)-3 ]; use p as gain; end",
        "begin\n  x := ((-(-1)) * (-2)) + y[c[z],(1 - 2) - 3];\n  use p as gain;\nend\n",
    ),
    (
        b"begin if not{a=1 or b<>2}and c<3 then skip; else for i:=0 to n-1 do end end end",
        "begin\n  if { not { a = 1 or b <> 2 } } and c < 3 then\n    skip;\n  else\n    for i := 0 to n - 1 do\n    end\n  end\nend\n",
    ),
    (
        b"begin while{true}do if false then else end end end",
        "begin\n  while true do\n    if false then\n    end\n  end\nend\n",
    ),
];

#[test]
fn each_production_is_printed_on_lines_of_its_own(rt: HostRuntime) {
    for (text, printed) in PRINTS {
        let Ok(program) = parse(rt.alloc(), text) else {
            panic!(rt; "no program")
        };
        let Ok(again) = print(rt.alloc(), &program) else {
            panic!(rt; "memory")
        };
        assert_eq!(rt; again.as_str(), printed);
    }
}

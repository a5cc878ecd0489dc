//! Cuts, pairs of a cut and a target, and what the path between them visits, against tables.

use ac_flow::{cuts, pairs};
use ac_parse::parse;
use ac_tree::{Cut, NodeId, Pair, Place, Program, Target};
use ac_walk::walk;
use std::alloc::{AllocError, Global};
use std::process::Abort;
use std::test::Fail;

/// A loop that writes each cell of an array, and a read behind it.
const FILLED_ARRAY: &str =
    "var a[10]; var i; var x; begin for i := 0 to 9 do a[i] := 0; end x := a[9]; end";

/// A loop inside an `if`, and a use behind both.
const LOOP_IN_A_BRANCH: &str =
    "input c : 0 .. 1; var a[5]; var i; begin if c = 0 then for i := 0 to 4 do a[i] := 0; end end use a as result; end";

/// A loop in each branch of an `if`, and a use behind both.
const LOOP_IN_EACH_BRANCH: &str =
    "input c : 0 .. 1; var a[5]; var i; begin if c = 0 then for i := 0 to 4 do a[i] := 0; end else for i := 0 to 4 do a[i] := 1; end end use a as result; end";

/// A `while` whose test reads inside an operand.
const SEARCH: &str =
    "input n : 0 .. 100; input a[n] : -9 .. 9; var i; begin i := 0; while i < n and a[i] <> 0 do i := i + 1; end end";

/// A loop inside a loop.
const FILLED_MATRIX: &str =
    "input n : 0 .. 50; var p[n,n]; var i; var j; begin for i := 0 to n - 1 do for j := 0 to n - 1 do p[i,j] := 0; end end use p as covariance; end";

/// A program with the places of its annotations and the nodes that a policy speaks of; its cuts, and its pairs.
#[derive(Clone, Copy)]
struct Row {
    program: &'static str,
    places: &'static [Place],
    subject: &'static [NodeId],
    cuts: &'static str,
    pairs: &'static str,
}

const ROWS: [Row; 5] = [
    Row {
        program: FILLED_ARRAY,
        places: &[Place::Loop(NodeId(4)), Place::After(NodeId(4))],
        subject: &[NodeId(8), NodeId(11)],
        cuts: "start, head 4, exit 4, after 4",
        pairs: "start to entry 4, head 4 to keep 4, exit 4 to barrier 4, head 4 to site 8, after 4 to site 11",
    },
    Row {
        program: FILLED_ARRAY,
        places: &[Place::Loop(NodeId(4)), Place::After(NodeId(4))],
        subject: &[],
        cuts: "start, head 4, exit 4, after 4",
        pairs: "start to entry 4, head 4 to keep 4, exit 4 to barrier 4",
    },
    // the path that passes by the loop goes on to the use
    Row {
        program: LOOP_IN_A_BRANCH,
        places: &[Place::Loop(NodeId(8)), Place::After(NodeId(8))],
        subject: &[NodeId(12), NodeId(14)],
        cuts: "start, head 8, exit 8, after 8",
        pairs: "start to entry 8, head 8 to keep 8, exit 8 to barrier 8, head 8 to site 12, start to site 14, after 8 to site 14",
    },
    Row {
        program: LOOP_IN_EACH_BRANCH,
        places: &[
            Place::Loop(NodeId(8)),
            Place::After(NodeId(8)),
            Place::Loop(NodeId(14)),
            Place::After(NodeId(14)),
            Place::After(NodeId(4)),
        ],
        subject: &[NodeId(12), NodeId(18), NodeId(20)],
        cuts: "start, after 4, head 8, exit 8, after 8, head 14, exit 14, after 14",
        pairs: "after 8 to barrier 4, after 14 to barrier 4, start to entry 8, head 8 to keep 8, exit 8 to barrier 8, head 8 to site 12, start to entry 14, head 14 to keep 14, exit 14 to barrier 14, head 14 to site 18, after 4 to site 20",
    },
    Row {
        program: "var a[4]; begin a[3] := 1; end",
        places: &[],
        subject: &[NodeId(2)],
        cuts: "start",
        pairs: "start to site 2",
    },
];

#[test]
fn each_cut_is_paired_with_what_control_reaches_before_the_next(
    rt: HostRuntime,
) -> Result<(), Fail> {
    for row in ROWS {
        let program = parse(rt.alloc(), row.program.as_bytes())?;
        has_the_cuts_and_pairs_of_its_row(&rt, rt.alloc(), &program, row)?;
    }
    Ok(())
}

fn has_the_cuts_and_pairs_of_its_row<R: Abort>(
    rt: &R,
    alloc: Global,
    program: &Program,
    row: Row,
) -> Result<(), AllocError> {
    let cuts = cuts(alloc, program, row.places)?;
    are_cuts(rt, alloc, cuts.as_slice(), row.cuts)?;
    let pairs = pairs(alloc, program, cuts.as_slice(), row.subject)?;
    are_pairs(rt, alloc, pairs.as_slice(), row.pairs)
}

fn are_cuts<R: Abort>(
    rt: &R,
    alloc: Global,
    cuts: &[Cut],
    expected: &str,
) -> Result<(), AllocError> {
    let text = cuts_text(alloc, cuts)?;
    assert_eq!(rt; text.as_str(), expected);
    Ok(())
}

fn are_pairs<R: Abort>(
    rt: &R,
    alloc: Global,
    pairs: &[Pair],
    expected: &str,
) -> Result<(), AllocError> {
    let text = pairs_text(alloc, pairs)?;
    assert_eq!(rt; text.as_str(), expected);
    Ok(())
}

fn cuts_text(alloc: Global, cuts: &[Cut]) -> Result<String, AllocError> {
    let mut text = String::new(alloc);
    for cut in cuts {
        if !text.is_empty() {
            text.push_str(", ")?;
        }
        push_cut(alloc, &mut text, *cut)?;
    }
    Ok(text)
}

fn pairs_text(alloc: Global, pairs: &[Pair]) -> Result<String, AllocError> {
    let mut text = String::new(alloc);
    for pair in pairs {
        if !text.is_empty() {
            text.push_str(", ")?;
        }
        push_pair(alloc, &mut text, *pair)?;
    }
    Ok(text)
}

fn push_pair(alloc: Global, text: &mut String, pair: Pair) -> Result<(), AllocError> {
    push_cut(alloc, text, pair.cut)?;
    text.push_str(" to ")?;
    push_target(alloc, text, pair.target)
}

fn push_cut(alloc: Global, text: &mut String, cut: Cut) -> Result<(), AllocError> {
    match cut {
        Cut::Start => text.push_str("start"),
        Cut::Head(node) => push_placed(alloc, text, "head", node),
        Cut::Exit(node) => push_placed(alloc, text, "exit", node),
        Cut::After(node) => push_placed(alloc, text, "after", node),
    }
}

fn push_target(alloc: Global, text: &mut String, target: Target) -> Result<(), AllocError> {
    match target {
        Target::Entry(node) => push_placed(alloc, text, "entry", node),
        Target::Keep(node) => push_placed(alloc, text, "keep", node),
        Target::Barrier(node) => push_placed(alloc, text, "barrier", node),
        Target::Site(node) => push_placed(alloc, text, "site", node),
    }
}

fn push_placed(
    alloc: Global,
    text: &mut String,
    word: &str,
    node: NodeId,
) -> Result<(), AllocError> {
    let number = node.0;
    text.push_str(format!(in alloc; "{word} {number}")?.as_str())
}

/// A program with the statements that have a barrier, a pair, and the nodes that its path visits.
#[derive(Clone, Copy)]
struct Walk {
    program: &'static str,
    barriers: &'static [Place],
    cut: Cut,
    target: Target,
    nodes: &'static [NodeId],
}

const WALKS: [Walk; 13] = [
    Walk {
        program: "var a[4]; begin a[3] := 1; end",
        barriers: &[],
        cut: Cut::Start,
        target: Target::Site(NodeId(2)),
        nodes: &[NodeId(2)],
    },
    Walk {
        program: FILLED_ARRAY,
        barriers: &[Place::After(NodeId(4))],
        cut: Cut::After(NodeId(4)),
        target: Target::Site(NodeId(11)),
        nodes: &[NodeId(4), NodeId(10), NodeId(11)],
    },
    Walk {
        program: FILLED_ARRAY,
        barriers: &[Place::After(NodeId(4))],
        cut: Cut::Head(NodeId(4)),
        target: Target::Keep(NodeId(4)),
        nodes: &[NodeId(4), NodeId(7)],
    },
    Walk {
        program: FILLED_ARRAY,
        barriers: &[Place::After(NodeId(4))],
        cut: Cut::Head(NodeId(4)),
        target: Target::Site(NodeId(8)),
        nodes: &[NodeId(4), NodeId(7), NodeId(8)],
    },
    Walk {
        program: LOOP_IN_A_BRANCH,
        barriers: &[Place::After(NodeId(8))],
        cut: Cut::Start,
        target: Target::Site(NodeId(14)),
        nodes: &[NodeId(1), NodeId(4), NodeId(5), NodeId(14)],
    },
    // the `if` around the loop is only left
    Walk {
        program: LOOP_IN_A_BRANCH,
        barriers: &[Place::After(NodeId(8))],
        cut: Cut::After(NodeId(8)),
        target: Target::Site(NodeId(14)),
        nodes: &[NodeId(1), NodeId(8), NodeId(14)],
    },
    Walk {
        program: LOOP_IN_EACH_BRANCH,
        barriers: &[
            Place::After(NodeId(8)),
            Place::After(NodeId(14)),
            Place::After(NodeId(4)),
        ],
        cut: Cut::After(NodeId(8)),
        target: Target::Barrier(NodeId(4)),
        nodes: &[NodeId(1), NodeId(4), NodeId(8)],
    },
    // the left operand of `and`, with the target inside
    Walk {
        program: SEARCH,
        barriers: &[],
        cut: Cut::Head(NodeId(6)),
        target: Target::Site(NodeId(9)),
        nodes: &[
            NodeId(1),
            NodeId(2),
            NodeId(6),
            NodeId(7),
            NodeId(8),
            NodeId(9),
        ],
    },
    Walk {
        program: SEARCH,
        barriers: &[],
        cut: Cut::Head(NodeId(6)),
        target: Target::Site(NodeId(12)),
        nodes: &[
            NodeId(1),
            NodeId(2),
            NodeId(6),
            NodeId(7),
            NodeId(8),
            NodeId(12),
        ],
    },
    Walk {
        program: SEARCH,
        barriers: &[],
        cut: Cut::Head(NodeId(6)),
        target: Target::Keep(NodeId(6)),
        nodes: &[
            NodeId(1),
            NodeId(2),
            NodeId(6),
            NodeId(7),
            NodeId(8),
            NodeId(15),
        ],
    },
    Walk {
        program: SEARCH,
        barriers: &[],
        cut: Cut::Start,
        target: Target::Entry(NodeId(6)),
        nodes: &[NodeId(1), NodeId(2), NodeId(4), NodeId(6)],
    },
    Walk {
        program: FILLED_MATRIX,
        barriers: &[Place::After(NodeId(5))],
        cut: Cut::Exit(NodeId(10)),
        target: Target::Keep(NodeId(5)),
        nodes: &[NodeId(1), NodeId(5), NodeId(10)],
    },
    Walk {
        program: FILLED_MATRIX,
        barriers: &[Place::After(NodeId(5))],
        cut: Cut::Head(NodeId(10)),
        target: Target::Site(NodeId(17)),
        nodes: &[NodeId(1), NodeId(5), NodeId(10), NodeId(15), NodeId(17)],
    },
];

#[test]
fn a_walk_names_what_lies_on_the_paths_of_a_pair(rt: HostRuntime) -> Result<(), Fail> {
    for row in WALKS {
        let program = parse(rt.alloc(), row.program.as_bytes())?;
        visits_the_nodes_of_its_row(&rt, rt.alloc(), &program, row)?;
    }
    Ok(())
}

fn visits_the_nodes_of_its_row<R: Abort>(
    rt: &R,
    alloc: Global,
    program: &Program,
    row: Walk,
) -> Result<(), AllocError> {
    let pair = Pair {
        cut: row.cut,
        target: row.target,
    };
    let nodes = visited(alloc, program, row.barriers, pair)?;
    assert_eq!(rt; nodes.as_slice(), row.nodes);
    Ok(())
}

/// What the paths of a pair visit, with the cuts of the places.
fn visited(
    alloc: Global,
    program: &Program,
    places: &[Place],
    pair: Pair,
) -> Result<Vec<NodeId>, AllocError> {
    let cuts = cuts(alloc, program, places)?;
    walk(alloc, program, cuts.as_slice(), &pair)
}

//! How control comes through statements: whether it passes without a cut, and from how many cuts inside it comes out.
ghost use Rattle.std.specs.Prelude.{◌≡◌, ◌+◌, ◌&&◌, ◌++◌, [], List, true, false, if◌then◌else◌, length};
ghost use Rattle.ac_tree.specs.declared.path.Cut.{Cut as AnyCut};
ghost use Rattle.ac_tree.specs.declared.program.StmtKind.{StmtKind as AnyKind};
ghost use Rattle.ac_flow.specs.Marks.{mark_at};
ghost use Rattle.ac_pair_count.specs.PairCount.{saturated};
ghost use Rattle.ac_pair_count.specs.Counted.{IsThrough, IsLeft, both_ways};

use ac_flow::marks::is_marked;
use ac_tree::NodeId;

/// Whether control passes without a cut, and from how many cuts inside it comes out.
#[derive(Clone, Copy)]
pub struct Through {
    pub passes: bool,
    pub exits: u64,
}

/// Through a statement without cuts inside.
pub fn passed() -> Through
    ensures { result ≡ record { passes = true; exits = 0 } }
{
    Through {
        passes: true,
        exits: 0,
    }
}

/// Through a loop: its exit is a cut.
pub fn stopped() -> Through
    ensures { result ≡ record { passes = false; exits = 1 } }
{
    Through {
        passes: false,
        exits: 1,
    }
}

/// How many cuts control comes from behind what it comes through, by how many it comes from before.
pub fn behind(live: u64, through: Through) -> u64
    ensures { (cuts inside : List AnyCut) → live ≡ saturated (length cuts) → through.exits ≡ saturated (length inside) → result ≡ saturated (length ((if through.passes then cuts else []) ++ inside)) }
{
    if through.passes {
        live.saturating_add(through.exits)
    } else {
        through.exits
    }
}

/// How control leaves a statement, by how it comes through: a barrier behind it is a cut.
pub fn leaving(barriers: &[bool], node: NodeId, inside: Through) -> Through
    ensures { (st : AnyKind) → IsThrough (mark_at barriers.now) inside node st → IsLeft (mark_at barriers.now) result node st }
{
    if is_marked(barriers, node) {
        stopped()
    } else {
        inside
    }
}

/// How control comes through one part or the other.
pub fn either(first: Through, second: Through) -> Through
    ensures { result ≡ both_ways first second }
{
    Through {
        passes: first.passes || second.passes,
        exits: first.exits.saturating_add(second.exits),
    }
}

/// How control comes through some statements and one more, by how it leaves that.
pub fn through_both(first: Through, next: Through) -> Through
    ensures passes { result.passes ≡ (first.passes && next.passes) }
    ensures exits { result.exits ≡ saturated ((if next.passes then first.exits else 0) + next.exits) }
{
    let before = if next.passes { first.exits } else { 0 };
    Through {
        passes: first.passes && next.passes,
        exits: before.saturating_add(next.exits),
    }
}

//! What control enters from the beginning of a block on.
ghost use Rattle.std.specs.Prelude.{◌≡◌, ◌≤◌, false, [], ◌∷◌, ◌++◌, ◌&&◌, ◌||◌, not, if◌then◌else◌, take, drop, vec_len, IfOk, OnOk};
ghost use Rattle.ac_flow.specs.Marks.{mark_at};
ghost use Rattle.ac_flow.specs.Through.{passes, list_passes};
ghost use Rattle.ac_walk.specs.Walks.{meets, met_by, past_by, entered, list_meets, list_entered};

use crate::targets::{is_access, is_behind, is_entry_of, is_read_in, is_read_in_index};
use crate::test_nodes::add_test;
use ac_flow::marks::is_marked;
use ac_tree::{NodeId, Stmt, StmtKind, Target};
use std::alloc::AllocError;

/// Where control stops: at a target, and at the statements that have a barrier behind them.
#[derive(Drop)]
pub struct Aim<'a> {
    pub barriers: &'a [bool],
    pub target: Target,
}

/// How control comes through a part of a program: whether it meets the target there, and whether it goes on behind without
/// having met it.
#[derive(Drop)]
pub struct Course {
    pub met: bool,
    pub on: bool,
}

/// Adds what control enters from the beginning of a block on, up to the target.
#[cycle(entered)]
#[tactic(auto, using(crate::proofs::Steps::stop_meets, crate::proofs::Steps::stop_on, crate::proofs::Steps::stop_entered))]
pub fn add_block(found: &mut Vec<NodeId>, aim: &Aim, block: &[Stmt]) -> Result<Course, AllocError>
    ensures met { IfOk result (λ course. course.met ≡ list_meets (mark_at aim.now.barriers.now) aim.now.target block.now) }
    ensures on { IfOk result (λ course. course.on ≡ (not (list_meets (mark_at aim.now.barriers.now) aim.now.target block.now) && list_passes (mark_at aim.now.barriers.now) block.now)) }
    ensures added { OnOk result (found.new.items ≡ found.old.items ++ list_entered (mark_at aim.now.barriers.now) aim.now.target block.now) }
{
    for stmt in block {
        let course = add_stmt(found, aim, stmt)?;
        if !course.on {
            return Ok(course);
        }
    }
    Ok(Course {
        met: false,
        on: true,
    })
}

/// Adds a statement and what control enters in it, up to the target, which may stand behind it.
#[cycle(entered)]
#[tactic(auto, using(crate::proofs::Steps::barred_met, crate::proofs::Steps::barred_on, crate::proofs::Steps::free_met, crate::proofs::Steps::free_on))]
fn add_stmt(found: &mut Vec<NodeId>, aim: &Aim, stmt: &Stmt) -> Result<Course, AllocError>
    ensures met { IfOk result (λ course. course.met ≡ met_by (mark_at aim.now.barriers.now) aim.now.target stmt.now.node.id stmt.now.kind (meets (mark_at aim.now.barriers.now) aim.now.target stmt.now.node.id stmt.now.kind)) }
    ensures on { IfOk result (λ course. course.on ≡ past_by (mark_at aim.now.barriers.now) aim.now.target stmt.now.node.id stmt.now.kind (meets (mark_at aim.now.barriers.now) aim.now.target stmt.now.node.id stmt.now.kind)) }
    ensures added { OnOk result (found.new.items ≡ found.old.items ++ stmt.now.node.id ∷ entered (mark_at aim.now.barriers.now) aim.now.target stmt.now.kind) }
{
    let node = stmt.node.id;
    found.push(node)?;
    let course = add_inside(found, aim, stmt)?;
    if course.on && is_marked(aim.barriers, node) {
        return Ok(Course {
            met: is_behind(aim.target, node),
            on: false,
        });
    }
    Ok(course)
}

#[cycle(entered)]
fn add_inside(found: &mut Vec<NodeId>, aim: &Aim, stmt: &Stmt) -> Result<Course, AllocError>
    ensures met { IfOk result (λ course. course.met ≡ meets (mark_at aim.now.barriers.now) aim.now.target stmt.now.node.id stmt.now.kind) }
    ensures on { IfOk result (λ course. course.on ≡ (not (meets (mark_at aim.now.barriers.now) aim.now.target stmt.now.node.id stmt.now.kind) && passes (mark_at aim.now.barriers.now) stmt.now.kind)) }
    ensures added { OnOk result (found.new.items ≡ found.old.items ++ entered (mark_at aim.now.barriers.now) aim.now.target stmt.now.kind) }
{
    let node = stmt.node.id;
    let target = aim.target;
    match &stmt.kind {
        StmtKind::Set { value, .. } => {
            Ok(access(is_read_in(target, value) || is_access(target, node)))
        }
        StmtKind::Put { index, value, .. } => Ok(access(
            is_read_in_index(target, index) || is_read_in(target, value) || is_access(target, node),
        )),
        StmtKind::If { test, yes, no } => {
            if add_test(found, target, test)? {
                return Ok(access(true));
            }
            let floor = found.len();
            let first = add_part(found, aim, yes.as_slice())?;
            if first.met {
                return Ok(first);
            }
            let middle = found.len();
            let second = add_part(found, aim, no.as_slice())?;
            Ok(joined(found, floor, middle, &first, &second))
        }
        StmtKind::For { lo, hi, .. } => Ok(turns(
            is_read_in(target, lo) || is_read_in(target, hi) || is_entry_of(target, node),
        )),
        StmtKind::While { .. } => Ok(turns(is_entry_of(target, node))),
        StmtKind::Hand { .. } => Ok(access(is_access(target, node))),
        StmtKind::Skip => Ok(access(false)),
    }
}

/// The course through a statement that control passes, but for the target.
fn access(met: bool) -> Course
    ensures met { result.met ≡ met }
    ensures on { result.on ≡ not met }
{
    Course { met, on: !met }
}

/// The course through a loop, at whose test a path ends.
fn turns(met: bool) -> Course
    ensures met { result.met ≡ met }
    ensures on { result.on ≡ false }
{
    Course { met, on: false }
}

/// Adds what control enters in a part of an `if`, unless the part is off its way: control neither meets the target in it nor
/// comes to its end.
#[cycle(entered)]
fn add_part(found: &mut Vec<NodeId>, aim: &Aim, block: &[Stmt]) -> Result<Course, AllocError>
    ensures met { IfOk result (λ course. course.met ≡ list_meets (mark_at aim.now.barriers.now) aim.now.target block.now) }
    ensures on { IfOk result (λ course. course.on ≡ (not (list_meets (mark_at aim.now.barriers.now) aim.now.target block.now) && list_passes (mark_at aim.now.barriers.now) block.now)) }
    ensures added { OnOk result (found.new.items ≡ found.old.items ++ (if list_meets (mark_at aim.now.barriers.now) aim.now.target block.now || list_passes (mark_at aim.now.barriers.now) block.now then list_entered (mark_at aim.now.barriers.now) aim.now.target block.now else [])) }
{
    let floor = found.len();
    let course = add_block(found, aim, block)?;
    if !course.met && !course.on {
        found.truncate(floor);
    }
    Ok(course)
}

/// Joins the courses through the two parts of an `if`, whose nodes stand from `floor` and from `middle` on. The target isn't
/// met in the first; where it is met in the second, the first is off the way.
fn joined(
    found: &mut Vec<NodeId>,
    floor: usize,
    middle: usize,
    first: &Course,
    second: &Course,
) -> Course
    requires order { floor ≤ middle }
    requires bound { middle ≤ vec_len found.old }
    ensures met { result.met ≡ second.now.met }
    ensures on { result.on ≡ (not second.now.met && (first.now.on || second.now.on)) }
    ensures kept { found.new.items ≡ (if second.now.met then take floor found.old.items ++ drop middle found.old.items else found.old.items) }
{
    if second.met {
        drop(found.drain(floor..middle));
        return access(true);
    }
    Course {
        met: false,
        on: first.on || second.on,
    }
}

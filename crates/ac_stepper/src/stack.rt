//! The tasks that are left, as a stack with the next one at its end.
ghost use Rattle.std.specs.Prelude.{◌≡◌, ◌+◌, ◌<◌, ◌≤◌, [], ◌∷◌, ◌++◌, map, vec_len, vec_capacity, MatchOption};
ghost use Rattle.ac_run.specs.Run.{Do};
ghost use Rattle.ac_stepper.specs.Tasks.{tasks_of, tasks_if, first_of, behind_of, rest_of};

use crate::pending::Pending;
use ac_tree::Stmt;

/// The next task.
pub(crate) fn next<'p>(tasks: &[Pending<'p>]) -> Option<Pending<'p>>
    ensures { MatchOption result (tasks_of tasks.now ≡ []) (λ task. tasks_of tasks.now ≡ first_of task ∷ rest_of (tasks_of tasks.now)) }
{
    let Some(split) = tasks.split_last() else {
        return None;
    };
    Some(*split.0)
}

/// Takes the next task off.
fn drop_next(tasks: &mut Vec<Pending<'_>>)
    ensures tasks { tasks_of tasks.new.items ≡ rest_of (tasks_of tasks.old.items) }
    ensures len { vec_len tasks.new ≤ vec_len tasks.old }
    ensures capacity { vec_capacity tasks.new ≡ vec_capacity tasks.old }
{
    let Some(task) = tasks.pop() else {
        return;
    };
    put_block(tasks, behind(task));
}

/// The statements behind the next one of a block.
fn behind<'p>(task: Pending<'p>) -> &'p [Stmt]
    ensures { map Do result.now ≡ behind_of task.entry }
{
    match task {
        Pending::Block(_, rest) => rest,
        Pending::Compare(_, _, _) | Pending::Advance(_, _, _) => &[],
    }
}

/// Puts the statements of a block before the other tasks, as one task of the stack.
pub(crate) fn put_block<'p>(tasks: &mut Vec<Pending<'p>>, block: &'p [Stmt])
    requires room { vec_len tasks.old < vec_capacity tasks.old }
    ensures tasks { tasks_of tasks.new.items ≡ map Do block.now ++ tasks_of tasks.old.items }
    ensures len { vec_len tasks.new ≤ vec_len tasks.old + 1 }
    ensures capacity { vec_capacity tasks.new ≡ vec_capacity tasks.old }
{
    let Some(split) = block.split_first() else {
        return;
    };
    tasks.push_reserved(Pending::Block(split.0, split.1));
}

/// Puts a task before the others, if there is one.
fn put_task<'p>(tasks: &mut Vec<Pending<'p>>, task: Option<Pending<'p>>)
    requires room { vec_len tasks.old < vec_capacity tasks.old }
    ensures tasks { tasks_of tasks.new.items ≡ tasks_if task.entry ++ tasks_of tasks.old.items }
    ensures len { vec_len tasks.new ≤ vec_len tasks.old + 1 }
    ensures capacity { vec_capacity tasks.new ≡ vec_capacity tasks.old }
{
    if let Some(task) = task {
        tasks.push_reserved(task);
    }
}

/// Puts a block and a task behind it in the place of the next task.
pub(crate) fn replace_next<'p>(
    tasks: &mut Vec<Pending<'p>>,
    block: &'p [Stmt],
    behind: Option<Pending<'p>>,
)
    requires room { vec_len tasks.old + 2 ≤ vec_capacity tasks.old }
    ensures { tasks_of tasks.new.items ≡ (map Do block.now ++ tasks_if behind.entry) ++ rest_of (tasks_of tasks.old.items) }
{
    drop_next(tasks);
    put_task(tasks, behind);
    put_block(tasks, block);
}

//! The names that a run writes.
ghost use Rattle.std.specs.Prelude.{◌≡◌, IfOk, OnOk, ◌||◌, bytes_eq};
ghost use Rattle.ac_tree.specs.Names.{NameBytes};
ghost use Rattle.ac_codes.specs.SideConditions.{writes, run_writes};
ghost use Rattle.ac_sameness.specs.Tests.{has_name};

use ac_tree::{Name, Stmt, StmtKind};
use std::alloc::{AllocError, Global};
use std::collections::HashMap;
use std::marker::Model;

/// The names that a run writes, which contracts see as the run. A name is looked up at once.
#[derive(Drop)]
pub struct Written<'p> {
    run: &'p [Stmt],
    names: HashMap<&'p str, ()>,
}

impl<'p> Model for Written<'p> {
    ghost use Rattle.std.specs.Prelude.{List};
    ghost use Rattle.std.specs.Coded.{codes};
    ghost use Rattle.ac_tree.specs.contracts.program.StmtKind as s;
    ghost use Rattle.ac_tree.specs.declared.program.Stmt.{Stmt};
    ghost use Rattle.ac_sameness.specs.Tests.{AreWritten};

    ghost Value = { List Stmt };

    ghost coded = { Prim.hlevel (codes, s.the_row.coded) };

    ghost view = { λ w. w.run.now };

    ghost invariant = { λ w. AreWritten w.run.now w.names.entries };
}

impl<'p> Written<'p> {
    /// Goes over a run once.
    pub fn new(alloc: Global, run: &'p [Stmt]) -> Result<Written<'p>, AllocError>
        ensures { IfOk result (λ w. w ≡ run.now) }
    {
        let mut names = HashMap::with_capacity(alloc, run.len())?;
        add_run(&mut names, run)?;
        Ok(Written { run, names })
    }

    /// Whether the run writes a name.
    pub fn has(&self, name: &Name) -> bool
        ensures { result ≡ run_writes name.now self.now }
    {
        self.names.contains_key(name.text())
    }
}

#[cycle(written)]
#[tactic(auto, using(crate::proofs::Rows::write_rules))]
fn add_stmt<'p>(names: &mut HashMap<&'p str, ()>, stmt: &'p Stmt) -> Result<(), AllocError>
    ensures { OnOk result ((x : NameBytes) → has_name names.new.entries x ≡ (has_name names.old.entries x || writes x stmt.now.kind)) }
{
    match &stmt.kind {
        StmtKind::Set { name, .. } => add_name(names, name),
        StmtKind::Put { name, .. } => add_name(names, name),
        StmtKind::If { yes, no, .. } => {
            add_run(names, yes.as_slice())?;
            add_run(names, no.as_slice())
        }
        StmtKind::For { name, body, .. } => {
            add_name(names, name)?;
            add_run(names, body.as_slice())
        }
        StmtKind::While { body, .. } => add_run(names, body.as_slice()),
        StmtKind::Hand { .. } => Ok(()),
        StmtKind::Skip => Ok(()),
    }
}

#[cycle(written)]
#[tactic(auto, using(crate::proofs::Dropping::writes_step))]
fn add_run<'p>(names: &mut HashMap<&'p str, ()>, run: &'p [Stmt]) -> Result<(), AllocError>
    ensures { OnOk result ((x : NameBytes) → has_name names.new.entries x ≡ (has_name names.old.entries x || run_writes x run.now)) }
{
    for stmt in run {
        add_stmt(names, stmt)?;
    }
    Ok(())
}

fn add_name<'p>(names: &mut HashMap<&'p str, ()>, name: &'p Name) -> Result<(), AllocError>
    ensures { OnOk result ((x : NameBytes) → has_name names.new.entries x ≡ (has_name names.old.entries x || bytes_eq name.now x)) }
{
    names.insert(name.text(), ())?;
    Ok(())
}

//! The places of a program at which an annotation may stand, marked by their nodes.
ghost use Rattle.std.specs.Prelude.{◌≡◌, ◌++◌, [], ◌∷◌, ℕ, IfOk, OnOk};
ghost use Rattle.std.specs.List.{list_any};
ghost use Rattle.ac_flow.specs.Pairs.{is_subject};
ghost use Rattle.ac_kernel.specs.Places.{is_loop, is_place, list_places, places_of, stmt_places};

use ac_flow::marks::{is_marked, mark_nodes, mark_places};
use ac_tree::{NodeId, Place, Program, Stmt, StmtKind};
use std::alloc::{AllocError, Global};
use std::marker::Model;

/// The places of a program, with a mark for each loop and for each statement. Contracts see it as the places.
#[derive(Drop)]
pub struct Places {
    places: Vec<Place>,
    loops: Vec<bool>,
    statements: Vec<bool>,
}

impl Model for Places {
    ghost use Rattle.std.specs.Prelude.{◌≡◌, ℕ, List};
    ghost use Rattle.ac_tree.specs.declared.path.Place.{Place};
    ghost use Rattle.ac_kernel.specs.Marked.{AreMarked};

    ghost Value = { List Place };

    ghost view = { λ p. p.places.items };

    ghost invariant = { λ p. AreMarked p.places.items p.loops.items p.statements.items };
}

impl Places {
    /// The places of a program, found in one walk.
    pub fn new(alloc: Global, program: &Program) -> Result<Places, AllocError>
        ensures { IfOk result (λ found. found ≡ places_of program.now) }
    {
        let mut places = Vec::new(alloc);
        add_block(&mut places, program.body.as_slice())?;
        let nodes = loop_nodes(alloc, places.as_slice())?;
        let loops = mark_nodes(alloc, nodes.as_slice())?;
        let statements = mark_places(alloc, places.as_slice())?;
        Ok(Places {
            places,
            loops,
            statements,
        })
    }

    /// Whether a place is one of these.
    pub fn has(&self, place: Place) -> bool
        ensures { result ≡ is_place self.now place }
    {
        match place {
            Place::Loop(node) => is_marked(self.loops.as_slice(), node),
            Place::After(node) => is_marked(self.statements.as_slice(), node),
        }
    }
}

/// The nodes of the loops among the places.
fn loop_nodes(alloc: Global, places: &[Place]) -> Result<Vec<NodeId>, AllocError>
    ensures { IfOk result (λ nodes. (n : ℕ) → is_subject nodes.items n ≡ list_any (is_loop n) places.now) }
{
    let mut nodes = Vec::new(alloc);
    for place in places {
        if let Place::Loop(node) = place {
            nodes.push(*node)?;
        }
    }
    Ok(nodes)
}

#[cycle(stmt_places)]
fn add_block(found: &mut Vec<Place>, block: &[Stmt]) -> Result<(), AllocError>
    ensures { OnOk result (found.new.items ≡ found.old.items ++ list_places block.now) }
{
    for stmt in block {
        add_stmt(found, stmt)?;
    }
    Ok(())
}

#[cycle(stmt_places)]
fn add_stmt(found: &mut Vec<Place>, stmt: &Stmt) -> Result<(), AllocError>
    ensures { OnOk result (found.new.items ≡ found.old.items ++ stmt_places stmt.now.node.id stmt.now.kind) }
{
    let node = stmt.node.id;
    match &stmt.kind {
        StmtKind::If { yes, no, .. } => {
            add_place(found, Place::After(node))?;
            add_block(found, yes.as_slice())?;
            add_block(found, no.as_slice())?;
            Ok(())
        }
        StmtKind::For { body, .. } => {
            add_loop(found, node)?;
            add_block(found, body.as_slice())?;
            Ok(())
        }
        StmtKind::While { body, .. } => {
            add_loop(found, node)?;
            add_block(found, body.as_slice())?;
            Ok(())
        }
        StmtKind::Set { .. } => add_place(found, Place::After(node)),
        StmtKind::Put { .. } => add_place(found, Place::After(node)),
        StmtKind::Hand { .. } => add_place(found, Place::After(node)),
        StmtKind::Skip => add_place(found, Place::After(node)),
    }
}

fn add_loop(found: &mut Vec<Place>, node: NodeId) -> Result<(), AllocError>
    ensures { OnOk result (found.new.items ≡ found.old.items ++ Place.Loop node ∷ Place.After node ∷ []) }
{
    found.push(Place::Loop(node))?;
    found.push(Place::After(node))?;
    Ok(())
}

fn add_place(found: &mut Vec<Place>, place: Place) -> Result<(), AllocError>
    ensures { OnOk result (found.new.items ≡ found.old.items ++ place ∷ []) }
{
    found.push(place)?;
    Ok(())
}

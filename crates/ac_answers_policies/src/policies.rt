//! Asks about sites and what policies say of them.
ghost use Rattle.std.specs.Prelude.{IfOk, IfSome};
ghost use Rattle.ac_tree.specs.StaticRules.{KeepsStaticRules};

use ac_answers_language::flow::{node_of, program};
use ac_asks::{Answer, list_at, text_at};
use ac_formula_printer::{print_formula, print_term};
use ac_logic::{ArrayTerm, Change, Formula, Sym, Term};
use ac_policy::{AnyPolicy, Policy, Site, SiteKind, scalar_write};
use ac_shared::Shared;
use ac_tree::{Name, NodeId, Program, Stmt, StmtKind};
use serde_json::{Value, json};
use sqlite_items::Items;
use std::alloc::{AllocError, Global};

/// The sites of a program, in order.
pub fn sites(alloc: Global, ask: &Value) -> Answer {
    let Some(program) = program_at(alloc, ask)? else {
        return Ok(None);
    };
    let mut list = Vec::new(alloc);
    for site in ac_policy::sites(alloc, &program)?.iter() {
        list.push(site_value(alloc, site)?)?;
    }
    Ok(Some(json!(in alloc; {"sites": list})?))
}

/// What a policy needs at the site of a node.
pub fn need(alloc: Global, ask: &Value) -> Answer {
    let (Some(node), Some(program)) = (node_at(ask), program_at(alloc, ask)?) else {
        return Ok(None);
    };
    let Some(policy) = policy_at(alloc, ask)? else {
        return Ok(None);
    };
    let sites = ac_policy::sites(alloc, &program)?;
    match site_of(sites.as_slice(), node) {
        Some(site) => printed(alloc, policy.need(alloc, &program, site)?),
        None => Ok(None),
    }
}

/// What a write at the site of a node, or of the variable of a `for`, does to the shadow variables.
pub fn effect(alloc: Global, ask: &Value) -> Answer {
    let (Some(node), Some(program)) = (node_at(ask), program_at(alloc, ask)?) else {
        return Ok(None);
    };
    let Some(policy) = policy_at(alloc, ask)? else {
        return Ok(None);
    };
    let sites = ac_policy::sites(alloc, &program)?;
    if let Some(site) = site_of(sites.as_slice(), node) {
        return effect_at(alloc, &policy, &program, site);
    }
    match variable_in(program.body.as_slice(), node) {
        Some(name) => effect_at(alloc, &policy, &program, &scalar_write(alloc, node, name)?),
        None => Ok(None),
    }
}

/// What a policy knows of a written scalar.
pub fn known(alloc: Global, ask: &Value) -> Answer {
    let Some(text) = text_at(ask, "name") else {
        return Ok(None);
    };
    let Some(policy) = policy_at(alloc, ask)? else {
        return Ok(None);
    };
    let name = Name::new(alloc, text)?;
    printed(alloc, policy.known(alloc, &name)?)
}

/// The program of an ask.
pub fn program_at(alloc: Global, ask: &Value) -> Result<Option<Program>, AllocError>
    ensures { IfOk result (λ found. IfSome found KeepsStaticRules) }
{
    match text_at(ask, "program") {
        Some(text) => program(alloc, text),
        None => Ok(None),
    }
}

fn node_at(ask: &Value) -> Option<NodeId> {
    node_of(ask.get("site")?)
}

/// The policy of an ask, with the roles that stand there.
pub fn policy_at(alloc: Global, ask: &Value) -> Result<Option<AnyPolicy>, AllocError> {
    match text_at(ask, "policy") {
        Some("init") => Ok(Some(AnyPolicy::Init)),
        Some("bounds") => Ok(Some(AnyPolicy::Bounds)),
        Some("symm") => symm_of(alloc, ask),
        _ => Ok(None),
    }
}

fn symm_of(alloc: Global, ask: &Value) -> Result<Option<AnyPolicy>, AllocError> {
    let Some(list) = list_at(ask, "roles") else {
        return Ok(None);
    };
    match names_of(alloc, list)? {
        Some(names) => {
            let roles = Items::from_vec(names);
            Ok(Some(AnyPolicy::Symm { roles }))
        }
        None => Ok(None),
    }
}

fn names_of(alloc: Global, list: &[Value]) -> Result<Option<Vec<Name>>, AllocError> {
    let mut names = Vec::new(alloc);
    for value in list.iter() {
        match value.as_str() {
            Some(text) => names.push(Name::new(alloc, text)?)?,
            None => return Ok(None),
        }
    }
    Ok(Some(names))
}

fn site_of<'s>(sites: &'s [Site], node: NodeId) -> Option<&'s Site> {
    for site in sites {
        if site.node == node {
            return Some(site);
        }
    }
    None
}

/// The variable of the `for` with a node.
#[cycle(variable)]
fn variable_in<'p>(block: &'p [Stmt], node: NodeId) -> Option<&'p Name> {
    for stmt in block {
        let found = variable_of(stmt, node);
        if found.is_some() {
            return found;
        }
    }
    None
}

#[cycle(variable)]
fn variable_of<'p>(stmt: &'p Stmt, node: NodeId) -> Option<&'p Name> {
    match &stmt.kind {
        StmtKind::For { name, body, .. } => {
            if stmt.node.id == node {
                return Some(name);
            }
            variable_in(body.as_slice(), node)
        }
        StmtKind::While { body, .. } => variable_in(body.as_slice(), node),
        StmtKind::If { yes, no, .. } => {
            let found = variable_in(yes.as_slice(), node);
            if found.is_some() {
                return found;
            }
            variable_in(no.as_slice(), node)
        }
        _ => None,
    }
}

fn printed(alloc: Global, formula: Option<Shared<Formula>>) -> Answer {
    match formula {
        Some(formula) => {
            let print = print_formula(alloc, formula.get())?;
            Ok(Some(json!(in alloc; {"print": print})?))
        }
        None => Ok(Some(json!(in alloc; {"none": true})?)),
    }
}

fn effect_at(alloc: Global, policy: &AnyPolicy, program: &Program, site: &Site) -> Answer {
    let mut list = Vec::new(alloc);
    for change in policy.effect(alloc, program, site)?.iter() {
        list.push(change_value(alloc, change)?)?;
    }
    Ok(Some(json!(in alloc; {"changes": list})?))
}

fn site_value(alloc: Global, site: &Site) -> Result<Value, AllocError> {
    let node = site.node.0;
    let name = site.name.text();
    let i = print_term(alloc, site.i.get())?;
    let j = print_term(alloc, site.j.get())?;
    match &site.kind {
        SiteKind::Read => json!(in alloc; [node, "read", name, i, j]),
        SiteKind::Write => json!(in alloc; [node, "write", name, i, j]),
        SiteKind::Hand { role } => {
            let role = role.text();
            json!(in alloc; [node, "hand", name, i, j, role])
        }
    }
}

/// A change in the form of `substitute`: a new array is given as the array of a read.
fn change_value(alloc: Global, change: &Change) -> Result<Value, AllocError> {
    match change {
        Change::Scalar(symbol, term) => {
            let symbol = symbol_text(alloc, symbol)?;
            let new = print_term(alloc, term.get())?;
            json!(in alloc; ["scalar", symbol, new])
        }
        Change::Array(symbol, array) => {
            let symbol = symbol_text(alloc, symbol)?;
            let new = array_text(alloc, array)?;
            json!(in alloc; ["array", symbol, new])
        }
    }
}

fn array_text(alloc: Global, array: &Shared<ArrayTerm>) -> Result<String, AllocError> {
    let read = first_cell(alloc, array)?;
    let text = print_term(alloc, read.get());
    drop(read);
    text
}

/// The read of an array at its first cell.
fn first_cell(alloc: Global, array: &Shared<ArrayTerm>) -> Result<Shared<Term>, AllocError> {
    let i = Shared::new(alloc, Term::Num(0))?;
    let j = i.share()?;
    let array = array.share()?;
    Shared::new(alloc, Term::Read(array, i, j))
}

fn symbol_text(alloc: Global, symbol: &Sym) -> Result<String, AllocError> {
    let symbol = match symbol {
        Sym::Value(name) => Sym::Value(name.clone()?),
        Sym::Init(name) => Sym::Init(name.clone()?),
        Sym::Fresh(number) => Sym::Fresh(*number),
    };
    let term = Shared::new(alloc, Term::Sym(symbol))?;
    let text = print_term(alloc, term.get());
    drop(term);
    text
}

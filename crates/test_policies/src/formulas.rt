//! What the policies need at sites, what a write does to shadow variables, and what is known of a written scalar.

use ac_formula_printer::{print_formula, print_term};
use ac_logic::{ArrayTerm, Change, Formula, Sym, Term};
use ac_parse::parse;
use ac_policy::{AnyPolicy, Policy, Site, sites};
use ac_shared::Shared;
use ac_tree::{Name, NodeId};
use sqlite_items::Items;
use std::alloc::{AllocError, Global};
use std::test::Fail;

const FILLED_ARRAY: &str =
    "var a[10]; var i; var x; begin for i := 0 to 9 do a[i] := 0; end x := a[9]; end";

const MATRIX: &str = "input n : 0 .. 50; var p[n,n]; begin p[0,1] := n; use p as covariance; end";

const OBLONG: &str =
    "var r[3,4]; var x; begin use r as covariance; use x as covariance; use r as other; end";

/// A program, a policy by its word, a node of a site, and what is needed there; `none` where nothing is.
const NEEDS: [(&str, &str, u32, &str); 13] = [
    (FILLED_ARRAY, "init", 11, "init(a)[9] = 1"),
    (FILLED_ARRAY, "init", 8, "init(i) = 1"),
    (FILLED_ARRAY, "init", 7, "none"),
    (FILLED_ARRAY, "bounds", 11, "0 <= 9 and 9 + 1 <= 10"),
    (FILLED_ARRAY, "bounds", 7, "0 <= i and i + 1 <= 10"),
    (FILLED_ARRAY, "bounds", 10, "none"),
    (
        MATRIX,
        "bounds",
        3,
        "{ 0 <= 0 and 0 + 1 <= n } and { 0 <= 1 and 1 + 1 <= n }",
    ),
    (MATRIX, "init", 6, "none"),
    (
        MATRIX,
        "init",
        7,
        "all _0 { all _1 { { { 0 <= _0 and _0 + 1 <= n } and { 0 <= _1 and _1 + 1 <= n } } implies init(p)[_0,_1] = 1 } }",
    ),
    (
        MATRIX,
        "symm",
        7,
        "n = n and { all _0 { all _1 { { { 0 <= _0 and _0 + 1 <= n } and { 0 <= _1 and _1 + 1 <= n } } implies p[_0,_1] = p[_1,_0] } } }",
    ),
    (
        OBLONG,
        "symm",
        3,
        "3 = 4 and { all _0 { all _1 { { { 0 <= _0 and _0 + 1 <= 3 } and { 0 <= _1 and _1 + 1 <= 4 } } implies r[_0,_1] = r[_1,_0] } } }",
    ),
    (OBLONG, "symm", 4, "false"),
    (OBLONG, "symm", 5, "none"),
];

/// The policy of a word; the roles of symm are `covariance` alone.
fn policy_of(alloc: Global, word: &str) -> Result<AnyPolicy, AllocError> {
    match word {
        "init" => Ok(AnyPolicy::Init),
        "bounds" => Ok(AnyPolicy::Bounds),
        _ => {
            let mut roles = Items::new(alloc);
            roles.push(Name::new(alloc, "covariance")?)?;
            Ok(AnyPolicy::Symm { roles })
        }
    }
}

fn site_of(sites: &[Site], node: NodeId) -> Result<&Site, Fail> {
    for site in sites {
        if site.node == node {
            return Ok(site);
        }
    }
    Err(Fail::new("no site at the node"))
}

fn text_of(alloc: Global, formula: Option<Shared<Formula>>) -> Result<String, AllocError> {
    match formula {
        Some(formula) => print_formula(alloc, formula.get()),
        None => String::from_str(alloc, "none"),
    }
}

#[test]
fn a_policy_needs_what_its_table_says(rt: HostRuntime) -> Result<(), Fail> {
    let alloc = rt.alloc();
    for (text, word, node, expected) in NEEDS {
        let program = parse(alloc, text.as_bytes())?;
        let sites = sites(alloc, &program)?;
        let site = site_of(sites.as_slice(), NodeId(node))?;
        let policy = policy_of(alloc, word)?;
        let need = text_of(alloc, policy.need(alloc, &program, site)?)?;
        assert_eq!(rt; need.as_str(), expected);
    }
    Ok(())
}

/// A program, a policy by its word, a node of a write, and what the write does to shadow variables.
const EFFECTS: [(&str, &str, u32, &str); 4] = [
    (
        FILLED_ARRAY,
        "init",
        7,
        "init(a) becomes put(init(a), i, 0, 1);",
    ),
    (FILLED_ARRAY, "init", 10, "init(x) becomes 1;"),
    (MATRIX, "init", 3, "init(p) becomes put(init(p), 0, 1, 1);"),
    (FILLED_ARRAY, "bounds", 7, ""),
];

fn changes_text(alloc: Global, changes: &[Change]) -> Result<String, AllocError> {
    let mut text = String::new(alloc);
    for change in changes {
        text.push_str(change_text(alloc, change)?.as_str())?;
    }
    Ok(text)
}

fn change_text(alloc: Global, change: &Change) -> Result<String, AllocError> {
    match change {
        Change::Scalar(symbol, term) => {
            let symbol = symbol_text(alloc, symbol)?;
            let term = print_term(alloc, term.get())?;
            format!(in alloc; "{symbol} becomes {term};")
        }
        Change::Array(symbol, array) => {
            let symbol = symbol_text(alloc, symbol)?;
            let read = first_cell(alloc, array)?;
            let text = print_term(alloc, &read)?;
            // an array is printed as the array of a read
            let array = text.as_str().strip_suffix("[0]").unwrap_or("no read");
            format!(in alloc; "{symbol} becomes {array};")
        }
    }
}

fn first_cell(alloc: Global, array: &Shared<ArrayTerm>) -> Result<Term, AllocError> {
    let row = Shared::new(alloc, Term::Num(0))?;
    let column = Shared::new(alloc, Term::Num(0))?;
    Ok(Term::Read(array.share()?, row, column))
}

fn symbol_text(alloc: Global, symbol: &Sym) -> Result<String, AllocError> {
    match symbol {
        Sym::Value(name) => String::from_str(alloc, name.text()),
        Sym::Init(name) => {
            let name = name.text();
            format!(in alloc; "init({name})")
        }
        Sym::Fresh(number) => format!(in alloc; "#{number}"),
    }
}

#[test]
fn a_write_marks_its_cell_under_init_alone(rt: HostRuntime) -> Result<(), Fail> {
    let alloc = rt.alloc();
    for (text, word, node, expected) in EFFECTS {
        let program = parse(alloc, text.as_bytes())?;
        let sites = sites(alloc, &program)?;
        let site = site_of(sites.as_slice(), NodeId(node))?;
        let policy = policy_of(alloc, word)?;
        let changes = policy.effect(alloc, &program, site)?;
        let changes = changes_text(alloc, changes.as_slice())?;
        assert_eq!(rt; changes.as_str(), expected);
    }
    Ok(())
}

#[test]
fn a_written_scalar_is_known_to_be_written(rt: HostRuntime) -> Result<(), Fail> {
    let alloc = rt.alloc();
    let name = Name::new(alloc, "i")?;
    for (word, expected) in [
        ("init", "init(i) = 1"),
        ("bounds", "none"),
        ("symm", "none"),
    ] {
        let policy = policy_of(alloc, word)?;
        let known = text_of(alloc, policy.known(alloc, &name)?)?;
        assert_eq!(rt; known.as_str(), expected);
    }
    Ok(())
}

//! The sites of programs.

use ac_formula_printer::print_term;
use ac_parse::parse;
use ac_policy::{Site, SiteKind, sites};
use std::alloc::{AllocError, Global};
use std::test::Fail;

/// Programs with their sites: the node, what is done there, the name, and the two indexes as terms.
const SITES: [(&str, &str); 5] = [
    (
        "var a[10]; var i; var x; begin for i := 0 to 9 do a[i] := 0; end x := a[9]; end",
        "7 write a i 0; 8 read i 0 0; 10 write x 0 0; 11 read a 9 0;",
    ),
    // a read stands before those inside its index
    (
        "var a[4]; var b[4]; begin a[b[a[0]]] := 1; end",
        "3 write a b[a[0]] 0; 4 read b a[0] 0; 5 read a 0 0;",
    ),
    // the ends of a `for` and the test of a `while`, but no variable of a `for`
    (
        "var a[4]; var i; begin for i := a[0] to a[1] do skip; end while a[2] < i do skip; end end",
        "4 read a 0 0; 6 read a 1 0; 11 read a 2 0; 13 read i 0 0;",
    ),
    // a constant is no site, and a term has its number
    (
        "const k = 2; var p[3,3]; begin p[k,k - 1] := -k; use p as covariance; end",
        "3 write p 2 2 - 1; 10 use p 0 0 covariance;",
    ),
    ("begin skip; end", ""),
];

#[test]
fn sites_stand_in_the_order_of_nodes(rt: HostRuntime) -> Result<(), Fail> {
    let alloc = rt.alloc();
    for (text, expected) in SITES {
        let program = parse(alloc, text.as_bytes())?;
        let sites = sites(alloc, &program)?;
        let found = sites_text(alloc, sites.as_slice())?;
        assert_eq!(rt; found.as_str(), expected);
    }
    Ok(())
}

fn sites_text(alloc: Global, sites: &[Site]) -> Result<String, AllocError> {
    let mut text = String::new(alloc);
    for site in sites {
        if !text.is_empty() {
            text.push(' ')?;
        }
        text.push_str(site_text(alloc, site)?.as_str())?;
    }
    Ok(text)
}

fn site_text(alloc: Global, site: &Site) -> Result<String, AllocError> {
    let (node, name) = (site.node.0, site.name.text());
    let i = print_term(alloc, site.i.get())?;
    let j = print_term(alloc, site.j.get())?;
    match &site.kind {
        SiteKind::Read => format!(in alloc; "{node} read {name} {i} {j};"),
        SiteKind::Write => format!(in alloc; "{node} write {name} {i} {j};"),
        SiteKind::Hand { role } => {
            let role = role.text();
            format!(in alloc; "{node} use {name} {i} {j} {role};")
        }
    }
}

//! The walk from the leaves up, which keeps its place and notes each rewrite.
ghost use Rattle.std.specs.Prelude.{◌≡◌, ℕ, List, ◌++◌, ◌∷◌, [], map, IfOk, MatchOption, OnOk, None};
ghost use Rattle.std.specs.Prelude.{ℤ, ◌↔◌, ◌⊎◌};
ghost use Rattle.std.specs.List.{Contains};
ghost use Rattle.ac_logic.specs.declared.label.Label.{Label};
ghost use Rattle.ac_logic.specs.Labels.{labels_of};
ghost use Rattle.ac_logic.specs.Aim.{AimsAt};
ghost use Rattle.ac_logic.specs.Meaning.{Valuation, HoldsIn};
ghost use Rattle.ac_simplify.specs.Rewriting.{Replays, IsSimple};
ghost use Rattle.ac_logic.specs.declared.formula.Formula.{Formula, True};
ghost use Rattle.ac_simplify.specs.Order.{below, simplified, rewrites_of, settled, settling, inside, inside_rewrites};

use crate::first_rule::first_rule;
use crate::rewrite::{Rewrite, Simplified};
use crate::rule::RewriteRule;
use ac_logic::{Formula, renew_pair};
use ac_shared::Shared;
use sqlite_items::Items;
use std::alloc::{AllocError, Global};

/// The place of the walk and the rewrites so far.
#[derive(Drop)]
struct Walk {
    path: Items<u32>,
    rewrites: Items<Rewrite>,
}

impl Walk {
    fn enter(&mut self, child: u32) -> Result<(), AllocError>
        ensures path { OnOk result (self.new.path ≡ self.old.path ++ child ∷ []) }
        ensures rewrites { OnOk result (self.new.rewrites ≡ self.old.rewrites) }
    {
        self.path.push(child)
    }

    fn leave(&mut self)
        ensures path { (p : List ℕ) (i : ℕ) → self.old.path ≡ p ++ i ∷ [] → self.new.path ≡ p }
        ensures rewrites { self.new.rewrites ≡ self.old.rewrites }
    {
        let _ = self.path.pop();
    }

    fn note(&mut self, alloc: Global, rule: RewriteRule) -> Result<(), AllocError>
        ensures path { OnOk result (self.new.path ≡ self.old.path) }
        ensures rewrites { OnOk result (self.new.rewrites ≡ self.old.rewrites ++ record { path = self.old.path; rule = rule } ∷ []) }
    {
        let path = Items::from_slice(alloc, self.path.as_slice())?;
        self.rewrites.push(Rewrite { path, rule })
    }
}

/// Simplifies a formula by the sixteen rules, from the leaves up and the left side first, until none applies.
///
/// The time is linear in the size of the formula, and in that of the rewrites with their paths. Where nothing under a node
/// changes, the very node is shared.
pub fn simplify(alloc: Global, formula: &Shared<Formula>) -> Result<Simplified, AllocError>
    ensures replays { IfOk result (λ s. Replays s.rewrites formula.now s.formula) }
    ensures in_order { IfOk result (λ s. s.rewrites ≡ rewrites_of formula.now) }
    ensures simple { IfOk result (λ s. IsSimple s.formula) }
    ensures holds { IfOk result (λ s. (w : Valuation) (e : List ℤ) → HoldsIn w e s.formula ↔ HoldsIn w e formula.now) }
    ensures labels { IfOk result (λ s. (l : Label) → Contains (labels_of s.formula) l → Contains (labels_of formula.now) l) }
    ensures aims { IfOk result (λ s. (l : Label) → AimsAt l formula.now → AimsAt l s.formula ⊎ (s.formula ≡ True)) }
{
    let simple = simplify_whole(alloc, formula)?;
    Ok(simple)
}

fn simplify_whole(alloc: Global, formula: &Shared<Formula>) -> Result<Simplified, AllocError>
    ensures formula { IfOk result (λ s. s.formula ≡ simplified formula.now) }
    ensures rewrites { IfOk result (λ s. s.rewrites ≡ rewrites_of formula.now) }
{
    let mut walk = Walk {
        path: Items::new(alloc),
        rewrites: Items::new(alloc),
    };
    let formula = match simplify_at(alloc, formula, &mut walk)? {
        Some(changed) => changed,
        None => formula.share()?,
    };
    Ok(Simplified {
        formula,
        rewrites: walk.rewrites,
    })
}

/// The simplified formula, or none where nothing changed, with its rewrites noted at the place of the walk.
#[cycle(simplify)]
fn simplify_at(
    alloc: Global,
    formula: &Shared<Formula>,
    walk: &mut Walk,
) -> Result<Option<Shared<Formula>>, AllocError>
    ensures changed { IfOk result (λ r. MatchOption r (simplified formula.now ≡ formula.now) (λ f. f ≡ simplified formula.now)) }
    ensures noted { OnOk result (walk.new.rewrites ≡ walk.old.rewrites ++ map (below walk.old.path) (rewrites_of formula.now)) }
    ensures back { OnOk result (walk.new.path ≡ walk.old.path) }
{
    match simplify_inside(alloc, formula.get(), walk)? {
        Some(inside) => {
            let inside = Shared::new(alloc, inside)?;
            let settled = settle(alloc, inside.get(), walk)?;
            Ok(Some(settled.unwrap_or(inside)))
        }
        None => {
            let settled = settle(alloc, formula.get(), walk)?;
            Ok(settled)
        }
    }
}

/// The formula after the first rule at its root; none where no rule applies there.
fn settle(
    alloc: Global,
    formula: &Formula,
    walk: &mut Walk,
) -> Result<Option<Shared<Formula>>, AllocError>
    ensures changed { IfOk result (λ r. MatchOption r (settled formula.now ≡ formula.now) (λ f. f ≡ settled formula.now)) }
    ensures noted { OnOk result (walk.new.rewrites ≡ walk.old.rewrites ++ map (below walk.old.path) (settling formula.now)) }
    ensures back { OnOk result (walk.new.path ≡ walk.old.path) }
{
    match first_rule(alloc, formula)? {
        Some((rule, reduct)) => {
            walk.note(alloc, rule)?;
            Ok(Some(reduct))
        }
        None => Ok(None),
    }
}

/// The formula with its parts simplified; none where no part changed.
#[cycle(simplify)]
fn simplify_inside(
    alloc: Global,
    formula: &Formula,
    walk: &mut Walk,
) -> Result<Option<Formula>, AllocError>
    ensures changed { IfOk result (λ r. MatchOption r (inside formula.now ≡ formula.now) (λ f. f ≡ inside formula.now)) }
    ensures noted { OnOk result (walk.new.rewrites ≡ walk.old.rewrites ++ map (below walk.old.path) (inside_rewrites formula.now)) }
    ensures back { OnOk result (walk.new.path ≡ walk.old.path) }
{
    match formula {
        Formula::True => Ok(None),
        Formula::False => Ok(None),
        Formula::Le(_, _) => Ok(None),
        Formula::Eq(_, _) => Ok(None),
        Formula::Not(f) => {
            let f = simplify_child(alloc, f, 0, walk)?;
            Ok(f.map(Formula::Not))
        }
        Formula::And(f, g) => {
            let left = simplify_child(alloc, f, 0, walk)?;
            let right = simplify_child(alloc, g, 1, walk)?;
            Ok(match renew_pair(f, left, g, right)? {
                Some((f, g)) => Some(Formula::And(f, g)),
                None => None,
            })
        }
        Formula::Or(f, g) => {
            let left = simplify_child(alloc, f, 0, walk)?;
            let right = simplify_child(alloc, g, 1, walk)?;
            Ok(match renew_pair(f, left, g, right)? {
                Some((f, g)) => Some(Formula::Or(f, g)),
                None => None,
            })
        }
        Formula::Implies(f, g) => {
            let left = simplify_child(alloc, f, 0, walk)?;
            let right = simplify_child(alloc, g, 1, walk)?;
            Ok(match renew_pair(f, left, g, right)? {
                Some((f, g)) => Some(Formula::Implies(f, g)),
                None => None,
            })
        }
        Formula::All(f) => {
            let f = simplify_child(alloc, f, 0, walk)?;
            Ok(f.map(Formula::All))
        }
        Formula::Lab(l, f) => {
            let f = simplify_child(alloc, f, 0, walk)?;
            Ok(match f {
                Some(f) => Some(Formula::Lab(*l, f)),
                None => None,
            })
        }
    }
}

/// A part of a formula, simplified at its place.
#[cycle(simplify)]
fn simplify_child(
    alloc: Global,
    formula: &Shared<Formula>,
    child: u32,
    walk: &mut Walk,
) -> Result<Option<Shared<Formula>>, AllocError>
    ensures changed { IfOk result (λ r. MatchOption r (simplified formula.now ≡ formula.now) (λ f. f ≡ simplified formula.now)) }
    ensures noted { OnOk result (walk.new.rewrites ≡ walk.old.rewrites ++ map (below walk.old.path) (map (below (child ∷ [])) (rewrites_of formula.now))) }
    ensures back { OnOk result (walk.new.path ≡ walk.old.path) }
{
    walk.enter(child)?;
    let simple = simplify_at(alloc, formula, walk)?;
    walk.leave();
    Ok(simple)
}

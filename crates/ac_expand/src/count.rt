//! Counts that the ground form rests on, without memory.
ghost use Rattle.std.specs.Prelude.{◌≡◌, ◌+◌, ◌*◌, ℕ, IfSome};
ghost use Rattle.ac_logic.specs.Size.{saturated};
ghost use Rattle.ac_expand.specs.Index.{shown_count};
ghost use Rattle.ac_expand.specs.Instances.{instances};

use ac_logic::Formula;

/// How many `all` are shown and stand in no assumed one; none where that is beyond u32.
pub(crate) fn shown_all(formula: &Formula, shown: bool) -> Option<u32>
    ensures { IfSome result (λ n. n ≡ shown_count shown formula.now) }
{
    match formula {
        Formula::True => Some(0),
        Formula::False => Some(0),
        Formula::Le(_, _) => Some(0),
        Formula::Eq(_, _) => Some(0),
        Formula::Not(f) => shown_all(f.get(), !shown),
        Formula::And(f, g) => shown_all(f.get(), shown)?.checked_add(shown_all(g.get(), shown)?),
        Formula::Or(f, g) => shown_all(f.get(), shown)?.checked_add(shown_all(g.get(), shown)?),
        Formula::Implies(f, g) => {
            shown_all(f.get(), !shown)?.checked_add(shown_all(g.get(), shown)?)
        }
        Formula::All(f) => {
            if shown {
                shown_all(f.get(), shown)?.checked_add(1)
            } else {
                Some(0)
            }
        }
        Formula::Lab(_, f) => shown_all(f.get(), shown),
    }
}

/// The number of instances over so many index terms, or the largest u64 where there are more.
pub(crate) fn count(formula: &Formula, index: u64, shown: bool) -> u64
    ensures { result ≡ saturated (instances index shown formula.now) }
{
    match formula {
        Formula::True => 0,
        Formula::False => 0,
        Formula::Le(_, _) => 0,
        Formula::Eq(_, _) => 0,
        Formula::Not(f) => count(f.get(), index, !shown),
        Formula::And(f, g) => plus(count(f.get(), index, shown), count(g.get(), index, shown)),
        Formula::Or(f, g) => plus(count(f.get(), index, shown), count(g.get(), index, shown)),
        Formula::Implies(f, g) => {
            plus(count(f.get(), index, !shown), count(g.get(), index, shown))
        }
        Formula::All(f) => {
            let inside = count(f.get(), index, shown);
            if shown {
                inside
            } else {
                at_each(index, inside)
            }
        }
        Formula::Lab(_, f) => count(f.get(), index, shown),
    }
}

fn plus(left: u64, right: u64) -> u64
    ensures { result ≡ saturated (left + right) }
{
    left.saturating_add(right)
}

/// An instance at each index term, each with those inside.
#[tactic(auto, using(crate::proofs::Counts::capped_product))]
fn at_each(index: u64, inside: u64) -> u64
    ensures { (m : ℕ) → inside ≡ saturated m → result ≡ saturated (index * (m + 1)) }
{
    index.saturating_mul(inside.saturating_add(1))
}

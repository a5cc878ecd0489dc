//! How large and how deep a formula is, and how often and how deep each symbol occurs in it.
//!
//! After changes a formula is as large and as deep as its profile says, where each symbol counts for what stands for it. So
//! no formula is made to be measured.
ghost use Rattle.std.specs.Prelude.{◌≡◌, ◌+◌, ◌≤◌, ℕ, max, true, false, IfOk, OnOk};
ghost use Rattle.ac_logic.specs.declared.formula.Formula.{Formula as AnyFormula};
ghost use Rattle.ac_logic.specs.Size.{saturated, size_of, depth_of};
ghost use Rattle.ac_conditions.specs.Weights.{Weights, weight};
ghost use Rattle.ac_profile.specs.Profile.{HasMeasures, IsProfile, capped};

use crate::counts::{
    Counts, Place, add_counts, add_formula, changed_counts, copied_counts, count_node,
    counted_depth, counted_size, no_counts, raise_all, symbol_count,
};
use crate::precondition::Precondition;
use ac_logic::{Change, Formula, Label};
use ac_shared::Shared;
use std::alloc::{AllocError, Global};

/// A formula before it is made.
///
/// Its depths are counted from a base, above which its root stands. So a node above all that there is takes one off the base,
/// and what is below it stays as it is.
#[derive(Drop)]
pub struct Profile {
    base: u32,
    counts: Counts,
}

/// Where a root stands at first.
const FIRST_BASE: u32 = 1_000_000;

/// A node above all that there is.
fn add_above(profile: &mut Profile)
    ensures { (s d : Weights → ℕ) → HasMeasures profile.old s d → HasMeasures profile.new (λ u. s u + 1) (λ u. d u + 1) }
{
    count_node(&mut profile.counts);
    if profile.base > 0 {
        profile.base -= 1;
    } else {
        raise_all(&mut profile.counts, 1);
    }
}

/// A formula beside what there is.
fn add_beside(profile: &mut Profile, formula: &Formula) -> Result<(), AllocError>
    ensures { OnOk result ((s d : Weights → ℕ) → HasMeasures profile.old s d → HasMeasures profile.new (λ u. s u + weight ◌+◌ u formula.now) (λ u. max (d u) (weight max u formula.now))) }
{
    let root = Place {
        count: 1,
        above: profile.base as u64,
    };
    add_formula(&mut profile.counts, formula, root)
}

/// Two profiles beside each other, of which the first has the higher base.
fn beside(high: Profile, low: Profile) -> Result<Profile, AllocError>
    requires { low.base ≤ high.base }
    ensures { IfOk result (λ made. (s d t e : Weights → ℕ) → HasMeasures high s d → HasMeasures low t e → HasMeasures made (λ u. s u + t u) (λ u. max (d u) (e u))) }
{
    let Profile { base, counts } = high;
    let Profile {
        base: under,
        counts: other,
    } = low;
    let by = base - under;
    let mut other = other;
    raise_all(&mut other, by as u64);
    let mut counts = counts;
    add_counts(&mut counts, &other)?;
    Ok(Profile { base, counts })
}

/// Whether a profile takes another in: the one with the higher base, and of two with the same base that with more symbols.
fn takes_in(first: &Profile, second: &Profile) -> bool
    ensures yes { result ≡ true → second.now.base ≤ first.now.base }
    ensures no { result ≡ false → first.now.base ≤ second.now.base }
{
    if first.base == second.base {
        return symbol_count(&first.counts) >= symbol_count(&second.counts);
    }
    first.base > second.base
}

/// Two profiles beside each other.
fn joined(first: Profile, second: Profile) -> Result<Profile, AllocError>
    ensures { IfOk result (λ made. (s d t e : Weights → ℕ) → HasMeasures first s d → HasMeasures second t e → HasMeasures made (λ u. s u + t u) (λ u. max (d u) (e u))) }
{
    if takes_in(&first, &second) {
        beside(first, second)
    } else {
        beside(second, first)
    }
}

/// A depth below a base.
fn below_base(level: u64, base: u32) -> u64
    ensures { (d : ℕ) → level ≡ saturated (base + d) → capped result ≡ capped d }
{
    level.saturating_sub(base as u64)
}

impl Profile {
    /// The size of the formula, or the largest u64 where it is larger.
    pub fn size(&self) -> u64
        ensures { (f : AnyFormula) → IsProfile self.now f → result ≡ saturated (size_of f) }
    {
        counted_size(&self.counts)
    }

    /// The depth of the formula, or a number that is as large as 2^32 where it is larger.
    pub fn depth(&self) -> u64
        ensures { (f : AnyFormula) → IsProfile self.now f → capped result ≡ capped (depth_of f) }
    {
        below_base(counted_depth(&self.counts), self.base)
    }
}

impl Precondition for Profile {
    ghost stands = { IsProfile };

    fn of(alloc: Global, formula: Shared<Formula>) -> Result<Profile, AllocError> {
        let root = Place {
            count: 1,
            above: FIRST_BASE as u64,
        };
        let mut counts = no_counts(alloc);
        add_formula(&mut counts, formula.get(), root)?;
        Ok(Profile {
            base: FIRST_BASE,
            counts,
        })
    }

    fn again(&self, alloc: Global) -> Result<Profile, AllocError> {
        let counts = copied_counts(alloc, &self.counts)?;
        Ok(Profile {
            base: self.base,
            counts,
        })
    }

    fn labelled(self, alloc: Global, label: Label) -> Result<Profile, AllocError> {
        let mut profile = self;
        add_above(&mut profile);
        Ok(profile)
    }

    fn and(self, alloc: Global, other: Profile) -> Result<Profile, AllocError> {
        let mut profile = joined(self, other)?;
        add_above(&mut profile);
        Ok(profile)
    }

    fn implied_by(self, alloc: Global, premise: Shared<Formula>) -> Result<Profile, AllocError> {
        let mut profile = self;
        add_beside(&mut profile, premise.get())?;
        add_above(&mut profile);
        Ok(profile)
    }

    fn after(self, alloc: Global, changes: &[Change]) -> Result<Profile, AllocError> {
        let Profile { base, counts } = self;
        let counts = changed_counts(alloc, counts, changes)?;
        Ok(Profile { base, counts })
    }
}

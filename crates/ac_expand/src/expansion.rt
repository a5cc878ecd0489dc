//! The ground form of a verification condition.
ghost use Rattle.std.specs.Prelude.{◌≡◌, ◌⊎◌, ◌<◌, ◌≤◌, true, IfErr, IfOk, OnOk};
ghost use Rattle.ac_tree.specs.Limits.{limit_of};
ghost use Rattle.ac_tree.specs.declared.limit.LimitKind.TheVariants as kind;
ghost use Rattle.ac_expand.specs.declared.answer.ExpandFault.TheVariants as fault;
ghost use Rattle.ac_expand.specs.Ground.{ground_form};
ghost use Rattle.ac_expand.specs.Index.{index_terms, shown_count};
ghost use Rattle.ac_expand.specs.Instances.{instances_of};

use crate::answer::{ExpandFault, Ground};
use crate::count::{count, shown_all};
use crate::index::index_terms;
use crate::names::Names;
use crate::walk::{Place, Walk, expanded};
use ac_logic::{Condition, Formula, Term, renew};
use ac_shared::Shared;
use ac_tree::LimitKind;
use sqlite_items::Items;
use std::alloc::{AllocError, Global};

/// The ground form of a condition's formula, its index terms and the number of its instances. A ground form with more
/// instances than the limit is refused before one of them is made.
///
/// Opening takes time in the size of the ground form, with the parts that instances share counted in each. Finding the index
/// terms goes over each index whole, so indexes nested in indexes are gone over once for each that holds them. Parts in which
/// nothing is opened are shared with the formula.
pub fn expand(alloc: Global, condition: &Condition) -> Result<Ground, ExpandFault>
    ensures formula { IfOk result (λ g. g.formula ≡ ground_form condition.now.formula) }
    ensures index { IfOk result (λ g. g.index ≡ index_terms condition.now.formula) }
    ensures instances { IfOk result (λ g. g.instances ≡ instances_of condition.now.formula) }
    ensures within { OnOk result (instances_of condition.now.formula ≤ limit_of kind.Instances) }
    ensures refused { IfErr result (λ e. (e ≡ fault.OutOfMemory) ⊎ ((limit_of kind.Instances < instances_of condition.now.formula) × (e ≡ fault.Instances (limit_of kind.Instances)))) }
{
    let formula = &condition.formula;
    let shown = shown_all(formula.get(), true).ok_or(AllocError)?;
    let index = index_terms(alloc, formula.get(), shown)?;
    let instances = count(formula.get(), index.len() as u64, true);
    let limit = LimitKind::Instances.number();
    if instances > limit {
        drop(index);
        return Err(ExpandFault::Instances { value: limit });
    }
    let formula = ground_form(alloc, formula, index.as_slice(), shown)?;
    Ok(Ground {
        formula,
        index,
        instances,
    })
}

/// The ground form over index terms, where so many `all` are shown outside every assumed one.
fn ground_form(
    alloc: Global,
    formula: &Shared<Formula>,
    index: &[Shared<Term>],
    shown: u32,
) -> Result<Shared<Formula>, AllocError>
    ensures { index.now ≡ index_terms formula.now → shown ≡ shown_count true formula.now → IfOk result (λ new. new ≡ ground_form formula.now) }
{
    let mut walk = Walk {
        bound: Items::new(alloc),
        names: Names {
            outer: 0,
            inner: shown,
        },
    };
    let at = Place {
        shown: true,
        inside: false,
    };
    let new = expanded(alloc, formula.get(), index, at, &mut walk)?;
    drop(walk);
    renew(formula, new)
}

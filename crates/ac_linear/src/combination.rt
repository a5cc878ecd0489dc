//! Combinations of normal forms, and forms without the prints of their units.
ghost use Rattle.std.specs.Prelude.{◌≡◌, IfOk, map, pos, Some, None, Err};
ghost use Rattle.ac_linear.specs.declared.fault.LinFault.TheVariants as LinFault;
ghost use Rattle.ac_linear.specs.NormalForm.{linear_of, number_form, part_of};
ghost use Rattle.ac_linear.specs.Combination.{combination_of, combined_with};
ghost use Rattle.ac_linear.specs.WellOrdered.{IsOrdered};

use crate::entry::{Entries, Entry, Form};
use crate::fault::LinFault;
use crate::form::plus;
use crate::linear::{Linear, Part};
use crate::printed::PrintedLinear;
use crate::range::Range;
use crate::unit::number_form;
use sqlite_items::Items;
use std::alloc::{AllocError, Global};

/// The sum of factor times fact, one fact after the other. It ends where either list does. It is too wide exactly where
/// a product or sum on the way leaves 128 bits. No factor is 0, each unit stands once, and the parts stand in the order
/// of their printed units, however those of the facts stand. Each unit of a fact is printed once.
pub fn combine(alloc: Global, facts: &[Linear], factors: &[u64]) -> Result<Linear, LinFault>
    ensures ok { IfOk result (λ sum. combination_of facts.now factors.now ≡ Some sum) }
    ensures ordered { IfOk result (λ sum. IsOrdered sum.parts) }
    ensures wide { result ≡ Err LinFault.Wide → combination_of facts.now factors.now ≡ None }
{
    let facts = printed(alloc, facts)?;
    combine_printed(alloc, facts, factors)
}

fn printed(alloc: Global, facts: &[Linear]) -> Result<Vec<PrintedLinear>, AllocError>
    ensures { IfOk result (λ printed. printed.items ≡ facts.now) }
{
    let mut printed = Vec::new(alloc);
    for fact in facts {
        printed.push(PrintedLinear::of(alloc, fact)?)?;
    }
    Ok(printed)
}

/// The same of facts that have the prints of their units. No unit is printed.
#[tactic(auto, using(crate::proofs::Ordered::combination_ordered))]
pub fn combine_printed(
    alloc: Global,
    facts: Vec<PrintedLinear>,
    factors: &[u64],
) -> Result<Linear, LinFault>
    ensures ok { IfOk result (λ sum. combination_of facts.items factors.now ≡ Some sum) }
    ensures ordered { IfOk result (λ sum. IsOrdered sum.parts) }
    ensures wide { result ≡ Err LinFault.Wide → combination_of facts.items factors.now ≡ None }
{
    match combination(alloc, facts, factors)? {
        Some(sum) => Ok(sum),
        None => Err(LinFault::Wide),
    }
}

fn combination(
    alloc: Global,
    facts: Vec<PrintedLinear>,
    factors: &[u64],
) -> Result<Option<Linear>, AllocError>
    ensures { IfOk result (λ sum. sum ≡ combination_of facts.items factors.now) }
{
    let Some(sum) = combined(alloc, facts, factors)? else {
        return Ok(None);
    };
    let linear = linear_of(alloc, sum)?;
    Ok(Some(linear))
}

/// The sum of factor times fact, in 128 bits.
#[tactic(auto, using(crate::proofs::Combining::beyond))]
fn combined(
    alloc: Global,
    facts: Vec<PrintedLinear>,
    factors: &[u64],
) -> Result<Option<Form>, AllocError>
    ensures { IfOk result (λ sum. sum ≡ combined_with (number_form (pos 0)) facts.items factors.now) }
{
    let mut sum = number_form(alloc, 0);
    let mut i = 0;
    for fact in facts {
        if i >= factors.len() {
            return Ok(Some(sum));
        }
        let form = fact.into_form();
        match plus(Range::Machine, sum, i128::from(factors[i]), form)? {
            Some(more) => sum = more,
            None => return Ok(None),
        }
        i += 1;
    }
    Ok(Some(sum))
}

/// The form without the prints.
pub fn linear_of(alloc: Global, form: Form) -> Result<Linear, AllocError>
    ensures { IfOk result (λ linear. linear ≡ linear_of form) }
{
    let Form { constant, entries } = form;
    let parts = parts_of(alloc, entries)?;
    Ok(Linear { constant, parts })
}

fn parts_of(alloc: Global, entries: Entries<Entry>) -> Result<Items<Part>, AllocError>
    ensures { IfOk result (λ parts. parts ≡ map part_of entries) }
{
    let Entries { items } = entries;
    let mut parts = Items::new(alloc);
    for entry in items {
        let Entry { unit, factor, .. } = entry;
        parts.push(Part { unit, factor })?;
    }
    Ok(parts)
}

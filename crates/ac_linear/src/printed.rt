//! Linear forms that keep the prints of their units.
ghost use Rattle.std.specs.Prelude.{◌≡◌, Err, IfOk, None, Some, map};
ghost use Rattle.ac_linear.specs.declared.fault.LinFault.TheVariants as LinFault;
ghost use Rattle.ac_linear.specs.NormalForm.{normal_of};
ghost use Rattle.ac_linear.specs.Combination.{entry_of_part, form_of_linear};

use crate::combination::linear_of;
use crate::entry::{Entries, Entry, Form, Print};
use crate::fault::LinFault;
use crate::fold::form_of;
use crate::linear::{Linear, Part};
use ac_logic::Term;
use std::alloc::{AllocError, Global};
use std::marker::Model;

/// A linear form with the print of each unit beside it, so that a combination prints none again. Contracts see it as the
/// linear form.
#[derive(Drop)]
pub struct PrintedLinear {
    form: Form,
}

impl Model for PrintedLinear {
    ghost use Rattle.std.specs.Prelude.{◌≡◌};
    ghost use Rattle.std.specs.Coded.{codes};
    ghost use Rattle.ac_logic.specs.contracts.formula.Term as term;
    ghost use Rattle.ac_linear.specs.declared.linear.Linear.{Linear};
    ghost use Rattle.ac_linear.specs.NormalForm.{linear_of};
    ghost use Rattle.ac_linear.specs.Combination.{form_of_linear};

    ghost Value = { Linear };

    ghost coded = { Prim.hlevel (codes, term.the_row.coded) };

    ghost view = { λ p. linear_of p.form };

    ghost invariant = { λ p. p.form ≡ form_of_linear (linear_of p.form) };
}

impl PrintedLinear {
    /// The normal form of a term, as `normal` gives it. Each unit is printed once.
    #[tactic(auto, using(crate::proofs::UnitPrints::normal_printed))]
    pub fn normal(alloc: Global, term: &Term) -> Result<PrintedLinear, LinFault>
        ensures ok { IfOk result (λ form. normal_of term.now ≡ Some form) }
        ensures wide { result ≡ Err LinFault.Wide → normal_of term.now ≡ None }
    {
        match form_of(alloc, term)? {
            Some(form) => Ok(PrintedLinear { form }),
            None => Err(LinFault::Wide),
        }
    }

    /// The linear form, whose units are printed here.
    #[tactic(auto, using(crate::proofs::UnitPrints::linear_printed, crate::proofs::UnitPrints::linear_again))]
    pub fn of(alloc: Global, linear: &Linear) -> Result<PrintedLinear, AllocError>
        ensures { IfOk result (λ printed. printed ≡ linear.now) }
    {
        let entries = entries_of(alloc, linear.parts.as_slice())?;
        let form = Form {
            constant: linear.constant,
            entries,
        };
        Ok(PrintedLinear { form })
    }

    /// The linear form alone.
    pub fn without_prints(self, alloc: Global) -> Result<Linear, AllocError>
        ensures { IfOk result (λ linear. linear ≡ self) }
    {
        linear_of(alloc, self.form)
    }

    /// What it is on the way.
    pub(crate) fn into_form(self) -> Form
        ensures { result ≡ form_of_linear self }
    {
        self.form
    }
}

fn entries_of(alloc: Global, parts: &[Part]) -> Result<Entries<Entry>, AllocError>
    ensures { IfOk result (λ entries. entries ≡ map entry_of_part parts.now) }
{
    let mut items = Vec::new(alloc);
    for part in parts {
        items.push(entry_of(alloc, part)?)?;
    }
    Ok(Entries { items })
}

fn entry_of(alloc: Global, part: &Part) -> Result<Entry, AllocError>
    ensures { IfOk result (λ entry. entry ≡ entry_of_part part.now) }
{
    let print = Print::of(alloc, part.unit.get())?;
    let unit = part.unit.share()?;
    Ok(Entry {
        unit,
        print,
        factor: part.factor,
    })
}

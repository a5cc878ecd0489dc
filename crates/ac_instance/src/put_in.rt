//! The instance of a pattern's formula at a match.
ghost use Rattle.std.specs.Prelude.{◌≡◌, Some, None, IsSome, IfOk, IfErr};
ghost use Rattle.std.specs.Option.{option_copied};
ghost use Rattle.ac_instance.specs.Instances.{formula_in};
ghost use Rattle.ac_instance.specs.Judging.{formula_wrong};
ghost use Rattle.ac_instance.specs.Outcomes.{instance_at, IsInstanceFault};

use crate::changes::changes;
use crate::fault::InstanceFault;
use crate::judge::judge_formula;
use crate::which::Which;
use ac_codes::{Match, Pattern};
use ac_logic::{Formula, substitute};
use ac_shared::Shared;
use ac_tree::Program;
use std::alloc::Global;

/// One of the pattern's formulas with the values of a match put in, and the numbers of constants: all changes are made at
/// once. It is refused where it doesn't speak of the program.
pub fn instance(
    alloc: Global,
    program: &Program,
    pattern: &Pattern,
    found: &Match,
    which: Which,
) -> Result<Shared<Formula>, InstanceFault>
    requires { IsSome (formula_in pattern.now which) }
    ensures ok { IfOk result (λ f. Some f ≡ instance_at program.now pattern.now found.now which) }
    ensures fits { IfOk result (λ f. formula_wrong program.now f ≡ None) }
    ensures bad { IfErr result (λ fault. IsInstanceFault program.now (instance_at program.now pattern.now found.now which) fault) }
{
    let formula = formula_of(pattern, which).unwrap();
    let changes = changes(alloc, program, pattern, found)?;
    let filled = substitute(alloc, formula, changes.as_slice())?;
    match judge_formula(program, filled.get()) {
        Ok(()) => Ok(filled),
        Err(wrong) => {
            let name = wrong.name.clone()?;
            Err(InstanceFault::Bad {
                name,
                reason: wrong.reason,
            })
        }
    }
}

fn formula_of(pattern: &Pattern, which: Which) -> Option<&Shared<Formula>>
    ensures { option_copied result ≡ formula_in pattern.now which }
{
    match which {
        Which::Gives => pattern.gives.as_ref(),
        Which::Loop(place) => pattern.loops.get(place as usize),
    }
}

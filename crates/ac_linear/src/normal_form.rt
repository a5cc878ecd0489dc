//! The call for normal forms.
ghost use Rattle.std.specs.Prelude.{◌≡◌, Err, IfOk, None, Some};
ghost use Rattle.ac_linear.specs.declared.fault.LinFault.TheVariants as LinFault;
ghost use Rattle.ac_linear.specs.NormalForm.{normal_of};
ghost use Rattle.ac_linear.specs.WellOrdered.{IsOrdered};

use crate::fault::LinFault;
use crate::linear::Linear;
use crate::printed::PrintedLinear;
use ac_logic::Term;
use std::alloc::Global;

/// The normal form of a term. It is too wide exactly where a factor or constant on the way leaves -2^62 to 2^62. No
/// factor is 0, each unit stands once, and the parts stand in the order of their printed units. Each unit is printed
/// once. The time is linear in the size of the term, but for sums and multiples: each part of the right side is put
/// among those of the left, where halving finds its place, and the parts behind it move up by one.
#[tactic(auto, using(crate::proofs::Ordered::normal_ordered))]
pub fn normal(alloc: Global, term: &Term) -> Result<Linear, LinFault>
    ensures ok { IfOk result (λ form. normal_of term.now ≡ Some form) }
    ensures ordered { IfOk result (λ form. IsOrdered form.parts) }
    ensures wide { result ≡ Err LinFault.Wide → normal_of term.now ≡ None }
{
    let form = PrintedLinear::normal(alloc, term)?;
    Ok(form.without_prints(alloc)?)
}

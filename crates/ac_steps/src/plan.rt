//! Plans: proofs on their way, whose parts are shared.
ghost use Rattle.std.specs.Prelude.{◌≡◌, List, map, IfOk};
ghost use Rattle.ac_logic.specs.declared.formula.Formula.{Formula as AnyFormula};
ghost use Rattle.ac_steps.specs.Contexts.{AllHaveNewNames, HasNewNames, IsNewName};
ghost use Rattle.ac_steps.specs.Plans.{AllShow, IsPlanOf, IsPlanStep, Shows, shown_by};
ghost use Rattle.ac_steps.specs.Ways.{contexts_of};

use ac_logic::{Formula, Term};
use ac_proof::RuleName;
use ac_shared::Shared;
use sqlite_items::Items;
use std::alloc::{AllocError, Global};

/// By what a plan shows its goal. The premises that each way has, and what they may suppose, are those of its line.
#[derive(Drop)]
pub enum Way {
    /// The goal is a hypothesis.
    Hypothesis,
    /// By the rule of this name, which has no fields.
    Plain(RuleName),
    /// By `all-elim`, with the term in place of the variable.
    Instance(Shared<Term>),
    /// By `all-intro`, with the new name `#k`.
    NewName(u32),
    /// By `linear`: how often each fact is taken.
    Combination(Items<u64>),
    /// `t + 1 <= s` from `not s <= t`, which may suppose `s <= t`.
    FromDenial(Shared<Term>, Shared<Term>),
    /// `s = t` from two contradictions, of `s + 1 <= t` and of `t + 1 <= s`.
    Between(Shared<Term>, Shared<Term>),
    /// In two cases, `s <= t` and `t + 1 <= s`.
    ByOrder(Shared<Term>, Shared<Term>),
    /// In three cases, `s = t`, `s + 1 <= t` and `t + 1 <= s`.
    ByEquality(Shared<Term>, Shared<Term>),
    /// From a first plan, and a second that may suppose what the first shows.
    Lemma,
}

/// What a plan shows, by what, and the plans of its premises.
#[derive(Drop)]
pub struct Plan {
    pub way: Way,
    pub goal: Shared<Formula>,
    pub premises: Items<Shared<Plan>>,
}

impl Plan {
    /// A plan of its last step and the plans of its premises. Where they show what they are to show, it shows its goal.
    pub fn new(
        alloc: Global,
        way: Way,
        goal: Shared<Formula>,
        premises: Items<Shared<Plan>>,
    ) -> Result<Shared<Plan>, AllocError>
        ensures shown { IfOk result (λ plan. shown_by plan ≡ goal) }
        ensures shows { IfOk result (λ plan. (hs : List AnyFormula) → IsPlanStep hs way goal (map shown_by premises) → AllShow hs (contexts_of way goal (map shown_by premises)) premises → Shows hs plan) }
        ensures new_names { IfOk result (λ plan. (gs : List AnyFormula) → IsNewName gs way → AllHaveNewNames gs premises → HasNewNames gs plan) }
    {
        let plan = last_step(way, goal, premises);
        let shared = Shared::new(alloc, plan)?;
        Ok(shared)
    }
}

fn last_step(way: Way, goal: Shared<Formula>, premises: Items<Shared<Plan>>) -> Plan
    ensures { IsPlanOf result way goal premises }
{
    Plan {
        way,
        goal,
        premises,
    }
}

//! Rules as lines have them.
ghost use Rattle.std.specs.Prelude.{◌≡◌, IfOk};
ghost use Rattle.ac_lines.specs.declared.line.SpelledRule.TheVariants.{Plain};
ghost use Rattle.ac_lines.specs.CertificateText.{spelled};

use ac_formula_printer::print_term;
use ac_lines::{SpelledRule, Text};
use ac_proof::{Rule, RuleName};
use sqlite_items::Items;
use std::alloc::{AllocError, Global};

fn plain(name: RuleName) -> SpelledRule
    ensures { result ≡ Plain name }
{
    SpelledRule::Plain { name }
}

/// The rule of a step as its line has it.
pub fn spelled_rule(alloc: Global, rule: &Rule) -> Result<SpelledRule, AllocError>
    ensures { IfOk result (λ s. s ≡ spelled rule.now) }
{
    match rule {
        Rule::Hyp { n } => Ok(SpelledRule::Hyp { n: *n }),
        Rule::AllIntro { k } => Ok(SpelledRule::AllIntro { k: *k }),
        Rule::AllElim { t } => {
            let text = print_term(alloc, t.get())?;
            let term = Text::new(alloc, text)?;
            Ok(SpelledRule::AllElim { term })
        }
        Rule::Linear { factors } => {
            let factors = Items::from_slice(alloc, factors.as_slice())?;
            Ok(SpelledRule::Linear { factors })
        }
        Rule::TrueIntro => Ok(plain(RuleName::TrueIntro)),
        Rule::FalseElim => Ok(plain(RuleName::FalseElim)),
        Rule::AndIntro => Ok(plain(RuleName::AndIntro)),
        Rule::AndLeft => Ok(plain(RuleName::AndLeft)),
        Rule::AndRight => Ok(plain(RuleName::AndRight)),
        Rule::OrLeft => Ok(plain(RuleName::OrLeft)),
        Rule::OrRight => Ok(plain(RuleName::OrRight)),
        Rule::OrElim => Ok(plain(RuleName::OrElim)),
        Rule::ImpliesIntro => Ok(plain(RuleName::ImpliesIntro)),
        Rule::ImpliesElim => Ok(plain(RuleName::ImpliesElim)),
        Rule::NotIntro => Ok(plain(RuleName::NotIntro)),
        Rule::NotElim => Ok(plain(RuleName::NotElim)),
        Rule::Classical => Ok(plain(RuleName::Classical)),
        Rule::LabIntro => Ok(plain(RuleName::LabIntro)),
        Rule::LabElim => Ok(plain(RuleName::LabElim)),
        Rule::EqLe => Ok(plain(RuleName::EqLe)),
        Rule::LeTotal => Ok(plain(RuleName::LeTotal)),
        Rule::EqSplit => Ok(plain(RuleName::EqSplit)),
        Rule::ReadPut => Ok(plain(RuleName::ReadPut)),
        Rule::ReadSame => Ok(plain(RuleName::ReadSame)),
    }
}

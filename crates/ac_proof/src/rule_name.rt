//! The names of the rules in texts of proofs.
ghost use Rattle.std.specs.Prelude.{◌≡◌};
ghost use Rattle.ac_proof.specs.RuleNames.{plain_rule, rule_name_of, rule_text};

use crate::rule::Rule;

/// What a rule is called in texts, whatever its fields are.
#[derive(Clone, Copy)]
pub enum RuleName {
    Hyp,
    TrueIntro,
    FalseElim,
    AndIntro,
    AndLeft,
    AndRight,
    OrLeft,
    OrRight,
    OrElim,
    ImpliesIntro,
    ImpliesElim,
    NotIntro,
    NotElim,
    Classical,
    AllIntro,
    AllElim,
    LabIntro,
    LabElim,
    Linear,
    EqLe,
    LeTotal,
    EqSplit,
    ReadPut,
    ReadSame,
}

impl RuleName {
    const EACH: [RuleName; 24] = [
        RuleName::Hyp,
        RuleName::TrueIntro,
        RuleName::FalseElim,
        RuleName::AndIntro,
        RuleName::AndLeft,
        RuleName::AndRight,
        RuleName::OrLeft,
        RuleName::OrRight,
        RuleName::OrElim,
        RuleName::ImpliesIntro,
        RuleName::ImpliesElim,
        RuleName::NotIntro,
        RuleName::NotElim,
        RuleName::Classical,
        RuleName::AllIntro,
        RuleName::AllElim,
        RuleName::LabIntro,
        RuleName::LabElim,
        RuleName::Linear,
        RuleName::EqLe,
        RuleName::LeTotal,
        RuleName::EqSplit,
        RuleName::ReadPut,
        RuleName::ReadSame,
    ];

    /// How the name is spelled.
    pub fn text(self) -> &'static str
        ensures { result.now ≡ rule_text self }
    {
        match self {
            RuleName::Hyp => "hyp",
            RuleName::TrueIntro => "true-intro",
            RuleName::FalseElim => "false-elim",
            RuleName::AndIntro => "and-intro",
            RuleName::AndLeft => "and-left",
            RuleName::AndRight => "and-right",
            RuleName::OrLeft => "or-left",
            RuleName::OrRight => "or-right",
            RuleName::OrElim => "or-elim",
            RuleName::ImpliesIntro => "implies-intro",
            RuleName::ImpliesElim => "implies-elim",
            RuleName::NotIntro => "not-intro",
            RuleName::NotElim => "not-elim",
            RuleName::Classical => "classical",
            RuleName::AllIntro => "all-intro",
            RuleName::AllElim => "all-elim",
            RuleName::LabIntro => "lab-intro",
            RuleName::LabElim => "lab-elim",
            RuleName::Linear => "linear",
            RuleName::EqLe => "eq-le",
            RuleName::LeTotal => "le-total",
            RuleName::EqSplit => "eq-split",
            RuleName::ReadPut => "read-put",
            RuleName::ReadSame => "read-same",
        }
    }

    /// The rule with this name, if there is one.
    #[tactic(auto, unfolding(crate::specs::RuleNames::rule_name_of))]
    pub fn of(word: &str) -> Option<RuleName>
        ensures { result ≡ rule_name_of word.now }
    {
        Self::EACH.iter().copied().find(|name| name.text() == word)
    }

    /// The rule of this name, if it has no fields.
    pub fn plain(self) -> Option<Rule>
        ensures { result ≡ plain_rule self }
    {
        match self {
            RuleName::Hyp | RuleName::AllIntro | RuleName::AllElim | RuleName::Linear => None,
            RuleName::TrueIntro => Some(Rule::TrueIntro),
            RuleName::FalseElim => Some(Rule::FalseElim),
            RuleName::AndIntro => Some(Rule::AndIntro),
            RuleName::AndLeft => Some(Rule::AndLeft),
            RuleName::AndRight => Some(Rule::AndRight),
            RuleName::OrLeft => Some(Rule::OrLeft),
            RuleName::OrRight => Some(Rule::OrRight),
            RuleName::OrElim => Some(Rule::OrElim),
            RuleName::ImpliesIntro => Some(Rule::ImpliesIntro),
            RuleName::ImpliesElim => Some(Rule::ImpliesElim),
            RuleName::NotIntro => Some(Rule::NotIntro),
            RuleName::NotElim => Some(Rule::NotElim),
            RuleName::Classical => Some(Rule::Classical),
            RuleName::LabIntro => Some(Rule::LabIntro),
            RuleName::LabElim => Some(Rule::LabElim),
            RuleName::EqLe => Some(Rule::EqLe),
            RuleName::LeTotal => Some(Rule::LeTotal),
            RuleName::EqSplit => Some(Rule::EqSplit),
            RuleName::ReadPut => Some(Rule::ReadPut),
            RuleName::ReadSame => Some(Rule::ReadSame),
        }
    }
}

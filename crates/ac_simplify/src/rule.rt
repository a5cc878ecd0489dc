//! The rules of rewriting.
ghost use Rattle.std.specs.Prelude.{◌≡◌};

/// A rule of rewriting, named after what it rewrites.
#[derive(Clone, Copy)]
pub enum RewriteRule {
    TrueAnd = 1,
    AndTrue = 2,
    FalseAnd = 3,
    AndFalse = 4,
    TrueOr = 5,
    OrTrue = 6,
    FalseOr = 7,
    OrFalse = 8,
    TrueImplies = 9,
    FalseImplies = 10,
    ImpliesTrue = 11,
    NotTrue = 12,
    NotFalse = 13,
    Compared = 14,
    LabelledTrue = 15,
    AllTrue = 16,
}

impl RewriteRule {
    ghost use Rattle.ac_simplify.specs.Rewriting.{number_of};

    /// The number of the rule, from 1 to 16.
    pub fn number(self) -> u8
        ensures { result ≡ number_of self }
    {
        self as u8
    }
}

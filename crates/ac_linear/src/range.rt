//! The range of the numbers of a form.
ghost use Rattle.std.specs.Prelude.{◌≡◌, ◌+ℤ◌, ◌*ℤ◌};
ghost use Rattle.ac_linear.specs.NormalForm.{within};

/// Which range a number on the way must not leave.
#[derive(Clone, Copy)]
pub enum Range {
    /// From -2^62 to 2^62.
    Coefficient,
    /// The numbers of 128 bits.
    Machine,
}

impl Range {
    /// The sum, or none where it leaves the range.
    #[tactic(auto, using(crate::proofs::Ranges::too_wide))]
    pub fn sum(self, a: i128, b: i128) -> Option<i128>
        ensures { result ≡ within self (a +ℤ b) }
    {
        match a.checked_add(b) {
            Some(n) => self.kept(n),
            None => None,
        }
    }

    /// The product, or none where it leaves the range.
    #[tactic(auto, using(crate::proofs::Ranges::too_wide))]
    pub fn product(self, a: i128, b: i128) -> Option<i128>
        ensures { result ≡ within self (a *ℤ b) }
    {
        match a.checked_mul(b) {
            Some(n) => self.kept(n),
            None => None,
        }
    }

    /// The number, or none where it is out of the range.
    pub fn kept(self, n: i128) -> Option<i128>
        ensures { result ≡ within self n }
    {
        match self {
            Range::Coefficient => {
                if n < -(1 << 62) || 1 << 62 < n {
                    return None;
                }
                Some(n)
            }
            Range::Machine => Some(n),
        }
    }
}

//! The numbers that literals make.
ghost use Rattle.std.specs.Prelude.{◌≡◌};
ghost use Rattle.ac_formula_printer.specs.FormulaText.{number_of as number_of_literal, short_of};
ghost use Rattle.ac_formula_machine.specs.FormulaMachine.{number_in as number_of_mark, short_in as short_of_mark};

use ac_formula_printer::FormulaMark;

/// The number that a literal makes, alone or behind `-`.
fn number_of(minus: bool, literal: u64) -> Option<i64>
    ensures { result ≡ number_of_literal minus literal }
{
    if !minus {
        return if literal < 9223372036854775808 {
            Some(literal as i64)
        } else {
            None
        };
    }
    if literal == 0 {
        return Some(0);
    }
    if literal <= 9223372036854775808 {
        return Some(-((literal - 1) as i64) - 1);
    }
    None
}

/// The number that a token makes, alone or behind `-`, if it is a literal.
pub(crate) fn number_in(minus: bool, mark: &FormulaMark) -> Option<i64>
    ensures { result ≡ number_of_mark minus mark.now }
{
    match mark {
        FormulaMark::Literal(literal) => number_of(minus, *literal),
        _ => None,
    }
}

/// The number of 32 bits that a literal makes.
fn short_number(literal: u64) -> Option<u32>
    ensures { result ≡ short_of literal }
{
    if literal < 4294967296 {
        Some(literal as u32)
    } else {
        None
    }
}

/// The number of 32 bits that a token makes, if it is a literal.
pub fn short_in(mark: &FormulaMark) -> Option<u32>
    ensures { result ≡ short_of_mark mark.now }
{
    match mark {
        FormulaMark::Literal(literal) => short_number(*literal),
        _ => None,
    }
}

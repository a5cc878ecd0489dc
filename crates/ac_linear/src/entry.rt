//! The working form: parts with their units' prints, so that each unit is printed once.
ghost use Rattle.std.specs.Prelude.{◌≡◌, IfOk};
ghost use Rattle.ac_formula_printer.specs.Printing.{text_of_term};

use ac_formula_printer::print_term;
use ac_logic::Term;
use ac_shared::Shared;
use std::alloc::{AllocError, Global};
use std::marker::Model;

/// The print of a unit, which contracts see as its bytes.
#[derive(Drop)]
pub struct Print {
    text: String,
}

impl Model for Print {
    ghost use Rattle.std.specs.Prelude.{ℕ, List, string_bytes};
    ghost use Rattle.std.specs.Coded.{coded_list, coded_ℕ};

    ghost Value = { List ℕ };

    ghost coded = { coded_list coded_ℕ };

    ghost view = { λ p. string_bytes p.text };
}

impl Print {
    /// The print of a term.
    pub fn of(alloc: Global, term: &Term) -> Result<Print, AllocError>
        ensures { IfOk result (λ print. print ≡ text_of_term 0 term.now) }
    {
        let text = print_term(alloc, term)?;
        Ok(Print { text })
    }

    pub fn text(&self) -> &str
        ensures { result.now ≡ self.now }
    {
        self.text.as_str()
    }
}

/// A part with the print of its unit, which is kept so that each unit is printed once.
#[derive(Drop)]
pub struct Entry {
    pub unit: Shared<Term>,
    pub print: Print,
    pub factor: i128,
}

/// A `Vec` that contracts see as the list of its elements.
#[derive(Drop)]
pub struct Entries<T> {
    pub items: Vec<T>,
}

impl<T> Model for Entries<T> {
    ghost use Rattle.std.specs.Prelude.{List};
    ghost use Rattle.std.specs.Coded.{coded_list};

    ghost Value = { List T };

    ghost coded = { coded_list T.code };

    ghost view = { λ e. e.items.items };
}

/// A form on the way. Its entries stand in the order of their prints, but for one made of a caller's parts.
#[derive(Drop)]
pub struct Form {
    pub constant: i128,
    pub entries: Entries<Entry>,
}

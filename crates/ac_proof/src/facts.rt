//! The facts of a linear step.
ghost use Rattle.std.specs.Prelude.{◌≡◌, ◌++◌, [], ◌∷◌, length, OnOk};

use ac_linear::PrintedLinear;
use std::alloc::{AllocError, Global};
use std::marker::Model;

/// Facts with the prints of their units, which contracts see as the list of their linear forms.
#[derive(Drop)]
pub struct Facts {
    items: Vec<PrintedLinear>,
}

impl Model for Facts {
    ghost use Rattle.std.specs.Prelude.{List};
    ghost use Rattle.std.specs.Coded.{codes};
    ghost use Rattle.ac_logic.specs.contracts.formula.Term as term;
    ghost use Rattle.ac_linear.specs.declared.linear.Linear.{Linear};

    ghost Value = { List Linear };

    ghost coded = { Prim.hlevel (codes, term.the_row.coded) };

    ghost view = { λ f. f.items.items };
}

impl Facts {
    pub fn new(alloc: Global) -> Facts
        ensures { result ≡ [] }
    {
        Facts {
            items: Vec::new(alloc),
        }
    }

    pub fn len(&self) -> usize
        ensures { result ≡ length self.now }
    {
        self.items.len()
    }

    pub fn push(&mut self, fact: PrintedLinear) -> Result<(), AllocError>
        ensures { OnOk result (self.new ≡ self.old ++ fact ∷ []) }
    {
        self.items.push(fact)?;
        Ok(())
    }

    pub fn into_vec(self) -> Vec<PrintedLinear>
        ensures { result.items ≡ self }
    {
        self.items
    }
}

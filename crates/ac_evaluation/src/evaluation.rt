//! Expressions, evaluated from left to right.
ghost use Rattle.std.specs.Prelude.{◌≡◌, ℤ, pos};
ghost use Rattle.ac_run.specs.Evaluation.{value_of, indexes_of};
ghost use Rattle.ac_evaluation.specs.Numbers.{numbers_of, numbers_of_index};
ghost use Rattle.ac_evaluation.specs.Evaluates.{Evaluates};

use crate::arithmetic::{difference, negation, product, sum};
use crate::stop::Stop;
use crate::store::Store;
use ac_run::Event;
use ac_tree::{Expr, ExprKind, Index};

impl Store<'_> {
    /// The number of an expression. Its reads are put behind the events.
    #[cycle(value)]
    pub fn value(&self, e: &Expr, events: &mut Vec<Event>) -> Result<i128, Stop>
        ensures { Evaluates (value_of self.now.program self.now.start self.now.memory e.now.kind) (numbers_of self.now.program self.now.start self.now.memory e.now.kind) result events.old.items events.new.items }
    {
        match &e.kind {
            ExprKind::Num(n) => Ok(i128::from(*n)),
            ExprKind::Get(name) => self.named(name, events),
            ExprKind::Read(name, at) => {
                let at = self.indexes(at, events)?;
                self.element(name, at, events)
            }
            ExprKind::Neg(a) => {
                let x = self.value(a.get(), events)?;
                negation(x)
            }
            ExprKind::Add(a, b) => {
                let x = self.value(a.get(), events)?;
                let y = self.value(b.get(), events)?;
                sum(x, y)
            }
            ExprKind::Sub(a, b) => {
                let x = self.value(a.get(), events)?;
                let y = self.value(b.get(), events)?;
                difference(x, y)
            }
            ExprKind::Mul(a, b) => {
                let x = self.value(a.get(), events)?;
                let y = self.value(b.get(), events)?;
                product(x, y)
            }
        }
    }

    /// The indexes of an access; a missing one is 0. Their reads are put behind the events.
    #[cycle(value)]
    pub fn indexes(&self, at: &Index, events: &mut Vec<Event>) -> Result<(i128, i128), Stop>
        ensures { Evaluates (indexes_of self.now.program self.now.start self.now.memory at.now) (numbers_of_index self.now.program self.now.start self.now.memory at.now) result events.old.items events.new.items }
    {
        match at {
            Index::One(a) => {
                let i = self.value(a.get(), events)?;
                Ok((i, 0))
            }
            Index::Two(a, b) => {
                let i = self.value(a.get(), events)?;
                let j = self.value(b.get(), events)?;
                Ok((i, j))
            }
        }
    }
}

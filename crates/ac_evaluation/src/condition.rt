//! Conditions, and expressions side by side.
ghost use Rattle.std.specs.Prelude.{◌≡◌};
ghost use Rattle.ac_run.specs.Evaluation.{both, value_of, indexes_of, related, truth_of};
ghost use Rattle.ac_evaluation.specs.Numbers.{numbers_of, numbers_of_index, numbers_of_condition, numbers_of_both};
ghost use Rattle.ac_evaluation.specs.Evaluates.{Evaluates};
ghost use Rattle.ac_evaluation.specs.Parts.{comparison};

use crate::stop::Stop;
use crate::store::Store;
use ac_run::Event;
use ac_tree::{Cond, CondKind, Expr, Index, RelOp};

impl Store<'_> {
    /// Whether a condition holds. `and` and `or` read their right side only where the left leaves the answer open.
    pub fn truth(&self, c: &Cond, events: &mut Vec<Event>) -> Result<bool, Stop>
        ensures { Evaluates (truth_of self.now.program self.now.start self.now.memory c.now.kind) (numbers_of_condition self.now.program self.now.start self.now.memory c.now.kind) result events.old.items events.new.items }
    {
        match &c.kind {
            CondKind::True => Ok(true),
            CondKind::False => Ok(false),
            CondKind::Rel(op, a, b) => self.compared(*op, a.get(), b.get(), events),
            CondKind::Not(c) => {
                let holds = self.truth(c.get(), events)?;
                Ok(!holds)
            }
            CondKind::And(c, d) => {
                let left = self.truth(c.get(), events)?;
                if left {
                    self.truth(d.get(), events)
                } else {
                    Ok(false)
                }
            }
            CondKind::Or(c, d) => {
                let left = self.truth(c.get(), events)?;
                if left {
                    Ok(true)
                } else {
                    self.truth(d.get(), events)
                }
            }
        }
    }

    fn compared(&self, op: RelOp, a: &Expr, b: &Expr, events: &mut Vec<Event>) -> Result<bool, Stop>
        ensures { Evaluates (comparison op (value_of self.now.program self.now.start self.now.memory a.now.kind) (value_of self.now.program self.now.start self.now.memory b.now.kind)) (numbers_of_both (numbers_of self.now.program self.now.start self.now.memory a.now.kind) (value_of self.now.program self.now.start self.now.memory a.now.kind) (numbers_of self.now.program self.now.start self.now.memory b.now.kind)) result events.old.items events.new.items }
    {
        let x = self.value(a, events)?;
        let y = self.value(b, events)?;
        Ok(related(op, x, y))
    }

    /// The numbers of two expressions.
    pub fn both(&self, a: &Expr, b: &Expr, events: &mut Vec<Event>) -> Result<(i128, i128), Stop>
        ensures { Evaluates (both (value_of self.now.program self.now.start self.now.memory a.now.kind) (value_of self.now.program self.now.start self.now.memory b.now.kind)) (numbers_of_both (numbers_of self.now.program self.now.start self.now.memory a.now.kind) (value_of self.now.program self.now.start self.now.memory a.now.kind) (numbers_of self.now.program self.now.start self.now.memory b.now.kind)) result events.old.items events.new.items }
    {
        let x = self.value(a, events)?;
        let y = self.value(b, events)?;
        Ok((x, y))
    }

    /// The indexes of an access and the number that is to be written there.
    pub fn indexes_and_value(
        &self,
        at: &Index,
        value: &Expr,
        events: &mut Vec<Event>,
    ) -> Result<((i128, i128), i128), Stop>
        ensures { Evaluates (both (indexes_of self.now.program self.now.start self.now.memory at.now) (value_of self.now.program self.now.start self.now.memory value.now.kind)) (numbers_of_both (numbers_of_index self.now.program self.now.start self.now.memory at.now) (indexes_of self.now.program self.now.start self.now.memory at.now) (numbers_of self.now.program self.now.start self.now.memory value.now.kind)) result events.old.items events.new.items }
    {
        let at = self.indexes(at, events)?;
        let number = self.value(value, events)?;
        Ok((at, number))
    }
}

fn related(op: RelOp, x: i128, y: i128) -> bool
    ensures { result ≡ related op x y }
{
    match op {
        RelOp::Eq => x == y,
        RelOp::Ne => x != y,
        RelOp::Lt => x < y,
        RelOp::Le => x <= y,
        RelOp::Gt => x > y,
        RelOp::Ge => x >= y,
    }
}

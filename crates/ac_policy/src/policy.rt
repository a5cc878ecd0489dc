//! What a policy is: its meaning, its formulas, and the laws that join them.
ghost use Rattle.std.specs.Prelude.{◌≡◌, List, Option, IfOk};
ghost use Rattle.ac_tree.specs.declared.program.Program.{Program as AnyProgram};
ghost use Rattle.ac_tree.specs.StaticRules.{KeepsStaticRules};
ghost use Rattle.ac_run.specs.declared.event.Event.{Event};
ghost use Rattle.ac_run.specs.declared.start.Start as started;
ghost use Rattle.ac_run.specs.Declarations.{NameBytes};
ghost use Rattle.ac_run.specs.Start.{Fits};
ghost use Rattle.ac_logic.specs.declared.formula.Change.{Change as AnyChange};
ghost use Rattle.ac_logic.specs.declared.formula.Formula.{Formula as AnyFormula};
ghost use Rattle.ac_policy.specs.declared.site.Site.{Site as AnySite};
ghost use Rattle.ac_policy.specs.Laws.{LawForm, LawEffect, LawNeed, LawKnown, LawFor};
ghost use Rattle.ac_policy.specs.State.{Shadow};

use crate::site::Site;
use ac_logic::{Change, Formula};
use ac_shared::Shared;
use ac_tree::{Name, Program};
use std::alloc::{AllocError, Global};

/// A safety policy: which events it forbids, the formulas by which a certificate shows that none comes, and why they serve.
///
/// A proof over every policy uses its meaning and its laws alone.
pub trait Policy {
    /// What the shadow variables of a program are after a trace from a start: a table of numbers for each name.
    ghost shadow: { Self → AnyProgram → started.Start → List Event → Shadow };

    /// The events that are bad after a trace from a start.
    ghost bad: { Self → AnyProgram → started.Start → List Event → Event → Type 0 };

    /// The formula that `need` gives.
    ghost need_of: { Self → AnyProgram → AnySite → Option AnyFormula };

    /// The changes that `effect` gives, in their order.
    ghost effect_of: { Self → AnyProgram → AnySite → List AnyChange };

    /// The formula that `known` gives.
    ghost known_of: { Self → NameBytes → Option AnyFormula };

    /// What is to be shown at a site; none where the site is not subject to the policy.
    fn need(
        &self,
        alloc: Global,
        program: &Program,
        site: &Site,
    ) -> Result<Option<Shared<Formula>>, AllocError>
        ensures { IfOk result (λ found. found ≡ need_of self.now program.now site.now) };

    /// What a write at a site does to the shadow variables.
    fn effect(
        &self,
        alloc: Global,
        program: &Program,
        site: &Site,
    ) -> Result<Vec<Change>, AllocError>
        ensures { IfOk result (λ changes. changes.items ≡ effect_of self.now program.now site.now) };

    /// What holds of a scalar once it was written.
    fn known(&self, alloc: Global, name: &Name) -> Result<Option<Shared<Formula>>, AllocError>
        ensures { IfOk result (λ found. found ≡ known_of self.now name.now) };

    /// The changes of a write are of different shadow variables. Where the terms of a site have no new name of a proof and no
    /// loose `Bound`, what a policy gives at it has none either, and no label; nor has what it knows of a scalar.
    ghost law_form: { (self : Self) (p : AnyProgram) → LawForm (need_of self p) (effect_of self p) (known_of self) };

    /// A write turns the shadow into the one that its changes give, at a site that has as many indexes as its name has extents;
    /// reads and uses leave it.
    ghost law_effect: { (self : Self) (p : AnyProgram) (start : started.Start) → LawEffect p start (shadow self p start) (effect_of self p) };

    /// In a state where the need of a site holds, or there is none, the event of the site is not bad: in a program that keeps
    /// the static rules, from a start that fits it, at a site that has as many indexes as its name has extents, and in a memory
    /// that keeps of the start how many numbers each name has and the numbers of the inputs.
    ghost law_need: { (self : Self) (p : AnyProgram) (start : started.Start) → KeepsStaticRules p → Fits p start → LawNeed p start (shadow self p start) (bad self p start) (need_of self p) };

    /// What is known of a scalar holds after a write of it, and after every later event.
    ghost law_known: { (self : Self) (p : AnyProgram) (start : started.Start) → LawKnown p start (shadow self p start) (known_of self) };

    /// The write of the variable of a `for`, which has no site, is not bad.
    ghost law_for: { (self : Self) (p : AnyProgram) (start : started.Start) → LawFor p start (bad self p start) };
}

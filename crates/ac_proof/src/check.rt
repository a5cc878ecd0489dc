//! The checker: a walk over a proof in preorder, which stops at the first step that is none.
ghost use Rattle.std.specs.Prelude.{◌≡◌, ℕ, ◌++◌, ◌<◌, All, length, map, IsTrue, IfOk, OnOk, IfErr};
ghost use Rattle.ac_logic.specs.Readable.{IsReadable};
ghost use Rattle.ac_proof.specs.declared.tree.ProofTree.{out-ProofTree};
ghost use Rattle.ac_proof.specs.Checked.{Checked, HasFewPremises, IsFault, goal_of};
ghost use Rattle.ac_proof.specs.Soundness.{Follows};
ghost use Rattle.ac_proof.specs.Walk.{added, IsStepOf, KnowsWell, PremiseIs, Walked, WalkedInto};

use crate::context::added_to;
use crate::fault::CheckFault;
use crate::instance::is_step;
use crate::known::{Known, are_readable, is_given};
use crate::tree::{ProofTree, StepPath};
use ac_logic::Formula;
use ac_shared::Shared;
use sqlite_items::Items;
use std::alloc::{AllocError, Global};

/// Checks a proof under hypotheses. The fault names the first step in preorder whose goal or term is not readable or which
/// is no instance of its rule. A goal that is a part of what was read before is not read again.
pub fn check_proof(
    alloc: Global,
    hyps: &[Shared<Formula>],
    tree: &ProofTree,
) -> Result<(), CheckFault>
    requires { HasFewPremises tree.now }
    ensures checked { OnOk result (Checked hyps.now tree.now) }
    ensures sound { OnOk result (Follows hyps.now (goal_of tree.now)) }
    ensures fault { IfErr result (IsFault hyps.now tree.now) }
{
    let known = Known {
        goal: false,
        hyps: are_readable(hyps),
    };
    let mut copy = copied(alloc, hyps)?;
    let mut path = Vec::new(alloc);
    if walk(alloc, &mut copy, &mut path, tree, known)? {
        return Ok(());
    }
    let path = Items::from_vec(path);
    Err(CheckFault::Step(StepPath { path }))
}

/// Checks a proof, and leaves the hypotheses as they were. Where it fails, the path has grown to the first fault.
#[cycle(walk)]
fn walk(
    alloc: Global,
    hyps: &mut Vec<Shared<Formula>>,
    path: &mut Vec<u32>,
    tree: &ProofTree,
    known: Known,
) -> Result<bool, AllocError>
    requires few { HasFewPremises tree.now }
    requires known { KnowsWell known hyps.old.items (goal_of tree.now) }
    ensures walked { IfOk result (λ checked. Walked hyps.old.items tree.now path.old.items path.new.items checked) }
    ensures hyps { IfOk result (λ checked. IsTrue checked → hyps.new.items ≡ hyps.old.items) }
{
    let premises = tree.premises.as_slice();
    if !is_step(
        alloc,
        hyps.as_slice(),
        &tree.rule,
        tree.goal.get(),
        premises,
        known,
    )? {
        return Ok(false);
    }
    for i in 0..premises.len() {
        if !walk_premise(alloc, hyps, path, tree, i, known.hyps)? {
            return Ok(false);
        }
    }
    Ok(true)
}

/// Checks premise number i of a step that is one, behind the premises before it.
#[cycle(walk)]
fn walk_premise(
    alloc: Global,
    hyps: &mut Vec<Shared<Formula>>,
    path: &mut Vec<u32>,
    tree: &ProofTree,
    i: usize,
    are_hyps_readable: bool,
) -> Result<bool, AllocError>
    requires place { i < length (out-ProofTree tree.now).premises }
    requires few { HasFewPremises tree.now }
    requires step { IsStepOf hyps.old.items tree.now }
    requires hyps { IsTrue are_hyps_readable → All IsReadable hyps.old.items }
    requires before { (k : ℕ) → k < i → PremiseIs hyps.old.items tree.now k Checked }
    ensures { IfOk result (λ checked. WalkedInto hyps.old.items hyps.new.items path.old.items path.new.items tree.now i checked) }
{
    let premises = tree.premises.as_slice();
    let count = hyps.len();
    let depth = path.len();
    push_added(alloc, hyps, tree, i)?;
    path.push(i as u32)?;
    let known = Known {
        goal: is_given(&tree.rule, i),
        hyps: are_hyps_readable,
    };
    if walk(alloc, hyps, path, &premises[i], known)? {
        path.truncate(depth);
        hyps.truncate(count);
        Ok(true)
    } else {
        Ok(false)
    }
}

/// Pushes what premise number i may use besides the hypotheses.
fn push_added(
    alloc: Global,
    hyps: &mut Vec<Shared<Formula>>,
    tree: &ProofTree,
    i: usize,
) -> Result<(), AllocError>
    ensures { OnOk result (hyps.new.items ≡ hyps.old.items ++ added (out-ProofTree tree.now).rule (out-ProofTree tree.now).goal (map goal_of (out-ProofTree tree.now).premises) i) }
{
    if let Some(more) = added_to(alloc, &tree.rule, &tree.goal, tree.premises.as_slice(), i)? {
        hyps.push(more)?;
    }
    Ok(())
}

fn copied(alloc: Global, hyps: &[Shared<Formula>]) -> Result<Vec<Shared<Formula>>, AllocError>
    ensures { IfOk result (λ copy. copy.items ≡ hyps.now) }
{
    let mut copy = Vec::new(alloc);
    for f in hyps {
        copy.push(f.share()?)?;
    }
    Ok(copy)
}

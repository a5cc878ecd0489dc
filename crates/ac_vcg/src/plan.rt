//! How many conditions a program has, and at which targets.
ghost use Rattle.std.specs.Prelude.{◌≡◌, ℕ, List, ◌||◌, length, IfOk, OnOk};
ghost use Rattle.ac_tree.specs.declared.limit.LimitKind.TheVariants as kind;
ghost use Rattle.ac_tree.specs.declared.path.Pair.{Pair as AnyPair};
ghost use Rattle.ac_tree.specs.declared.path.Target.{Target as AnyTarget};
ghost use Rattle.ac_tree.specs.declared.policy.PolicyName.{PolicyName as AnyName};
ghost use Rattle.ac_flow.specs.Cuts.{has_barrier, has_place, is_after as is_behind_place};
ghost use Rattle.ac_flow.specs.Marks.{mark_at};
ghost use Rattle.ac_flow.specs.Pairs.{is_subject};
ghost use Rattle.ac_logic.specs.declared.condition.Condition.{Condition as AnyCondition};
ghost use Rattle.ac_policy.specs.Sites.{sites_of};
ghost use Rattle.ac_conditions.specs.AllConditions.{at_each, all_conditions as every_condition};
ghost use Rattle.ac_conditions.specs.Conditions.{conditions_at as conditions_of};
ghost use Rattle.ac_conditions.specs.Marked.{needed_nodes};
ghost use Rattle.ac_conditions.specs.Part.{part_of, places_of};
ghost use Rattle.ac_conditions.specs.Targets.{list_targets};
ghost use Rattle.ac_vcg.specs.Ground.{IsGround};
ghost use Rattle.ac_targets.specs.Numbered.{IsInOrder};
ghost use Rattle.ac_pair_count.specs.PairCount.{target_node as node_of_target, aimed_nodes};
ghost use Rattle.ac_vcg.specs.Plan.{IsPlan, IsKept, AreReached};
ghost use Rattle.ac_vcg.specs.Refusals.{is_above};
ghost use Rattle.ac_vcg.specs.Stands.{AreFound};

use crate::found::Found;
use crate::one_target::{Ground, conditions_at};
use ac_flow::marks::{is_marked, mark_nodes};
use ac_logic::Annotation;
use ac_pair_count::{count_pairs, target_node};
use ac_policy::{Policy, sites};
use ac_profile::Reached;
use ac_targets::targets;
use ac_tree::{Cut, LimitKind, NodeId, Place, Program, Target};
use std::alloc::{AllocError, Global};

/// How many conditions there are, as far as their limit asks, and every target that has one.
#[derive(Drop)]
pub struct Plan {
    pub count: u64,
    pub targets: Vec<Target>,
}

/// The plan of a program's conditions. Where its nodes are in order, no path is followed for it.
pub fn make_plan<P: Policy>(
    alloc: Global,
    program: &Program,
    policy: &P,
    annotations: &[Annotation],
    ground: &Ground,
) -> Result<Plan, AllocError>
    requires { IsGround program.now ground.now }
    ensures { IfOk result (λ plan. (name : AnyName) → IsPlan plan (conditions_of program.now name (part_of (P.need_of policy.now program.now) (P.effect_of policy.now program.now) (P.known_of policy.now) annotations.now)) (every_condition program.now name (P.need_of policy.now program.now) (P.effect_of policy.now program.now) (P.known_of policy.now) annotations.now)) }
{
    let all = targets(alloc, program)?;
    if ground.is_ordered {
        plan_by_flow(alloc, program, policy, annotations, all.as_slice())
    } else {
        let count = count_all(alloc, program, policy, annotations, ground, all.as_slice())?;
        Ok(Plan {
            count,
            targets: all,
        })
    }
}

/// The plan by the pairs of control flow.
fn plan_by_flow<P: Policy>(
    alloc: Global,
    program: &Program,
    policy: &P,
    annotations: &[Annotation],
    all: &[Target],
) -> Result<Plan, AllocError>
    ensures { IfOk result (λ plan. all.now ≡ list_targets program.now program.now.body → IsInOrder program.now → (name : AnyName) → IsPlan plan (conditions_of program.now name (part_of (P.need_of policy.now program.now) (P.effect_of policy.now program.now) (P.known_of policy.now) annotations.now)) (every_condition program.now name (P.need_of policy.now program.now) (P.effect_of policy.now program.now) (P.known_of policy.now) annotations.now)) }
{
    let cuts = barriers(alloc, annotations)?;
    let subject = subjects(alloc, program, policy)?;
    let found = count_pairs(alloc, program, cuts.as_slice(), subject.as_slice())?;
    let targets = reached(alloc, all, found.nodes.as_slice())?;
    Ok(Plan {
        count: found.count,
        targets,
    })
}

/// The cuts of barriers.
fn barriers(alloc: Global, annotations: &[Annotation]) -> Result<Vec<Cut>, AllocError>
    ensures { IfOk result (λ cuts. (n : ℕ) → has_barrier cuts.items n ≡ has_place (places_of annotations.now) n) }
{
    let mut cuts = Vec::new(alloc);
    for annotation in annotations {
        add_barrier(&annotation.place, &mut cuts)?;
    }
    Ok(cuts)
}

/// Adds the cut at a place, where it is that of a barrier.
fn add_barrier(place: &Place, cuts: &mut Vec<Cut>) -> Result<(), AllocError>
    ensures { OnOk result ((n : ℕ) → has_barrier cuts.new.items n ≡ (has_barrier cuts.old.items n || is_behind_place n place.now)) }
{
    match place {
        Place::After(node) => {
            cuts.push(Cut::After(*node))?;
            Ok(())
        }
        Place::Loop(_) => Ok(()),
    }
}

/// The nodes of the sites at which the policy needs something.
fn subjects<P: Policy>(
    alloc: Global,
    program: &Program,
    policy: &P,
) -> Result<Vec<NodeId>, AllocError>
    ensures { IfOk result (λ nodes. nodes.items ≡ needed_nodes (P.need_of policy.now program.now) (sites_of program.now)) }
{
    let all = sites(alloc, program)?;
    let mut nodes = Vec::new(alloc);
    for site in all.iter() {
        let need = policy.need(alloc, program, site)?;
        if need.is_some() {
            nodes.push(site.node)?;
        }
    }
    Ok(nodes)
}

/// The targets at some nodes.
fn reached(alloc: Global, all: &[Target], nodes: &[NodeId]) -> Result<Vec<Target>, AllocError>
    ensures { IfOk result (λ kept. (at : AnyTarget → List AnyCondition) (pairs : List AnyPair) → ((n : ℕ) → is_subject nodes.now n ≡ is_subject (aimed_nodes pairs) n) → AreReached at all.now pairs → at_each at kept.items ≡ at_each at all.now) }
{
    let marks = mark_nodes(alloc, nodes)?;
    let mut kept = Vec::new(alloc);
    for target in all {
        keep(marks.as_slice(), target, &mut kept)?;
    }
    Ok(kept)
}

/// Keeps a target, where its node is marked.
fn keep(marks: &[bool], target: &Target, kept: &mut Vec<Target>) -> Result<(), AllocError>
    ensures { OnOk result (IsKept (mark_at marks.now (node_of_target target.now).0) target.now kept.old.items kept.new.items) }
{
    if !is_aimed(marks, target) {
        return Ok(());
    }
    kept.push(*target)?;
    Ok(())
}

/// Whether the node of a target is marked.
fn is_aimed(marks: &[bool], target: &Target) -> bool
    ensures { result ≡ mark_at marks.now (node_of_target target.now).0 }
{
    is_marked(marks, target_node(*target))
}

/// How many conditions some targets have, as far as the limit asks: no target is looked at beyond it.
fn count_all<P: Policy>(
    alloc: Global,
    program: &Program,
    policy: &P,
    annotations: &[Annotation],
    ground: &Ground,
    targets: &[Target],
) -> Result<u64, AllocError>
    requires { IsGround program.now ground.now }
    ensures { IfOk result (λ count. (name : AnyName) → is_above kind.Conditions count ≡ is_above kind.Conditions (length (at_each (conditions_of program.now name (part_of (P.need_of policy.now program.now) (P.effect_of policy.now program.now) (P.known_of policy.now) annotations.now)) targets.now))) }
{
    let most = LimitKind::Conditions.number();
    let mut count: u64 = 0;
    for target in targets {
        let found: Vec<Found<Reached>> = conditions_at(
            alloc,
            program,
            policy,
            annotations,
            ground,
            target,
        )?;
        count = count.saturating_add(found.len() as u64);
        if count > most {
            return Ok(count);
        }
    }
    Ok(count)
}

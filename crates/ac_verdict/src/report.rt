//! The texts of the reports, one a kind of outcome.

ghost use Rattle.std.specs.Prelude.{◌≡◌, ◌++◌, codes, map, IfOk, OnOk, string_bytes};
ghost use Rattle.std.specs.Fmt.{decimal};
ghost use Rattle.std.specs.List.{flat_map, list_any};
ghost use Rattle.ac_verdict.specs.declared.outcome.Outcome.TheVariants.{Accepted, Rejected, Program as ProgramOutcome, Limit as LimitOutcome};
ghost use Rattle.ac_verdict.specs.declared.program_fault.ProgramFault.TheVariants.{NotUtf8, Token, Unexpected, Rule, NotSupported};
ghost use Rattle.ac_verdict.specs.Report.{report, line, unproved_line, count_line, policy_word, is_bounds, assumptions, end_of_run};

use crate::count::Count;
use crate::outcome::Outcome;
use crate::program_fault::ProgramFault;
use ac_tree::{LimitKind, Node, NodeId, PolicyName, Span, StaticFault};
use std::alloc::{AllocError, Global};
use std::fmt::Write;

/// The report of a program that is refused.
#[tactic(auto, unfolding(crate::specs::Report::report, crate::specs::Report::lines_of))]
pub(crate) fn program_refused(alloc: Global, fault: &ProgramFault) -> Result<String, AllocError>
    ensures { IfOk result (λ text. string_bytes text ≡ report (ProgramOutcome fault.now)) }
{
    match fault {
        ProgramFault::NotUtf8 { at } => not_utf8(alloc, *at),
        ProgramFault::Token { at } => no_token(alloc, *at),
        ProgramFault::Unexpected { span } => unexpected(alloc, *span),
        ProgramFault::Rule { fault } => rule_broken(alloc, *fault),
        ProgramFault::NotSupported { node } => not_supported(alloc, *node),
    }
}

#[tactic(auto, unfolding(crate::specs::Report::report, crate::specs::Report::lines_of))]
fn not_utf8(alloc: Global, at: u32) -> Result<String, AllocError>
    ensures { IfOk result (λ text. string_bytes text ≡ report (ProgramOutcome (NotUtf8 at))) }
{
    format!(in alloc; "program: not UTF-8 at {at}\n")
}

#[tactic(auto, unfolding(crate::specs::Report::report, crate::specs::Report::lines_of))]
fn no_token(alloc: Global, at: u32) -> Result<String, AllocError>
    ensures { IfOk result (λ text. string_bytes text ≡ report (ProgramOutcome (Token at))) }
{
    format!(in alloc; "program: token at {at}\n")
}

#[tactic(auto, unfolding(crate::specs::Report::report, crate::specs::Report::lines_of))]
fn unexpected(alloc: Global, span: Span) -> Result<String, AllocError>
    ensures { IfOk result (λ text. string_bytes text ≡ report (ProgramOutcome (Unexpected span))) }
{
    let start = span.start;
    let end = span.end;
    format!(in alloc; "program: unexpected at {start}..{end}\n")
}

#[tactic(auto, unfolding(crate::specs::Report::report, crate::specs::Report::lines_of))]
fn rule_broken(alloc: Global, fault: StaticFault) -> Result<String, AllocError>
    ensures { IfOk result (λ text. string_bytes text ≡ report (ProgramOutcome (Rule fault))) }
{
    let rule = fault.rule;
    let node = fault.node.0;
    format!(in alloc; "program: rule S{rule} at node {node}\n")
}

#[tactic(auto, unfolding(crate::specs::Report::report, crate::specs::Report::lines_of))]
fn not_supported(alloc: Global, node: NodeId) -> Result<String, AllocError>
    ensures { IfOk result (λ text. string_bytes text ≡ report (ProgramOutcome (NotSupported node))) }
{
    let node = node.0;
    format!(in alloc; "program: not built at node {node}\n")
}

/// The report of a limit that is passed.
#[tactic(auto, unfolding(crate::specs::Report::report, crate::specs::Report::lines_of))]
pub(crate) fn limit_passed(
    alloc: Global,
    which: LimitKind,
    value: u64,
) -> Result<String, AllocError>
    ensures { IfOk result (λ text. string_bytes text ≡ report (LimitOutcome which value)) }
{
    let word = which.word();
    format!(in alloc; "limit: {word} {value}\n")
}

/// The report of a program all of whose conditions are proved.
pub(crate) fn accepted(alloc: Global, counts: &[Count]) -> Result<String, AllocError>
    ensures { IfOk result (λ text. string_bytes text ≡ report (Accepted counts.now)) }
{
    let mut text = String::from_str(alloc, "accepted\n")?;
    push_counts(&mut text, counts)?;
    push_assumptions(&mut text, counts)?;
    Ok(text)
}

/// The report of a program with unproved conditions at these nodes.
pub(crate) fn rejected(
    alloc: Global,
    counts: &[Count],
    unproved: &[Node],
) -> Result<String, AllocError>
    ensures { IfOk result (λ text. string_bytes text ≡ report (Rejected counts.now unproved.now)) }
{
    let mut text = String::from_str(alloc, "rejected\n")?;
    push_counts(&mut text, counts)?;
    push_sites(&mut text, unproved)?;
    Ok(text)
}

/// Adds the line of each policy.
fn push_counts(text: &mut String, counts: &[Count]) -> Result<(), AllocError>
    ensures { OnOk result (string_bytes text.new ≡ string_bytes text.old ++ flat_map line (map count_line counts.now)) }
{
    for count in counts {
        push_count(text, *count)?;
    }
    Ok(())
}

fn push_count(text: &mut String, count: Count) -> Result<(), AllocError>
    ensures { OnOk result (string_bytes text.new ≡ string_bytes text.old ++ line (count_line count)) }
{
    let word = policy_word(count.policy);
    let unproved = count.unproved;
    if unproved == 0 {
        push_proved(text, word, count.conditions)
    } else {
        push_some_unproved(text, word, unproved, count.conditions)
    }
}

fn push_proved(text: &mut String, word: &str, conditions: usize) -> Result<(), AllocError>
    ensures { OnOk result (string_bytes text.new ≡ string_bytes text.old ++ line (word.now ++ (codes ": " ++ (decimal conditions ++ codes " conditions proved")))) }
{
    write!(text, "{word}: {conditions} conditions proved\n")
}

fn push_some_unproved(
    text: &mut String,
    word: &str,
    unproved: usize,
    conditions: usize,
) -> Result<(), AllocError>
    ensures { OnOk result (string_bytes text.new ≡ string_bytes text.old ++ line (word.now ++ (codes ": " ++ (decimal unproved ++ (codes " of " ++ (decimal conditions ++ codes " conditions unproved")))))) }
{
    write!(
        text,
        "{word}: {unproved} of {conditions} conditions unproved\n"
    )
}

/// The word of a policy.
fn policy_word(policy: PolicyName) -> &'static str
    ensures { result.now ≡ policy_word policy }
{
    match policy {
        PolicyName::Init => "init",
        PolicyName::Bounds => "bounds",
        PolicyName::Symm => "symm",
    }
}

/// Adds what is assumed.
fn push_assumptions(text: &mut String, counts: &[Count]) -> Result<(), AllocError>
    ensures { OnOk result (string_bytes text.new ≡ string_bytes text.old ++ flat_map line (assumptions counts.now)) }
{
    push_line(text, "assumption: inputs lie in their declared ranges")?;
    push_line(text, "assumption: whole numbers have no bound")?;
    push_end_of_run(text, has_bounds(counts))?;
    Ok(())
}

fn push_end_of_run(text: &mut String, has_bounds: bool) -> Result<(), AllocError>
    ensures { OnOk result (string_bytes text.new ≡ string_bytes text.old ++ flat_map line (end_of_run has_bounds)) }
{
    if has_bounds {
        return Ok(());
    }
    push_line(
        text,
        "assumption: a run ends at its first access outside an array",
    )
}

fn push_line(text: &mut String, words: &str) -> Result<(), AllocError>
    ensures { OnOk result (string_bytes text.new ≡ string_bytes text.old ++ line words.now) }
{
    write!(text, "{words}\n")
}

fn has_bounds(counts: &[Count]) -> bool
    ensures { result ≡ list_any (λ k. is_bounds k.policy) counts.now }
{
    counts.iter().any(|count| is_bounds(count.policy))
}

fn is_bounds(policy: PolicyName) -> bool
    ensures { result ≡ is_bounds policy }
{
    matches!(policy, PolicyName::Bounds)
}

/// Adds the line of each unproved condition.
fn push_sites(text: &mut String, unproved: &[Node]) -> Result<(), AllocError>
    ensures { OnOk result (string_bytes text.new ≡ string_bytes text.old ++ flat_map line (map unproved_line unproved.now)) }
{
    for node in unproved {
        push_unproved(text, *node)?;
    }
    Ok(())
}

fn push_unproved(text: &mut String, node: Node) -> Result<(), AllocError>
    ensures { OnOk result (string_bytes text.new ≡ string_bytes text.old ++ line (unproved_line node)) }
{
    let site = node.id.0;
    let start = node.span.start;
    let end = node.span.end;
    write!(
        text,
        "unproved bounds start -> site {site} at {start}..{end}\n"
    )
}

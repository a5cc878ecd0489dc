//! Parts of a certificate written, and the whole.
ghost use Rattle.std.specs.Prelude.{◌≡◌, IfOk, OnOk, map, string_bytes};
ghost use Rattle.std.specs.List.{flat_map};
ghost use Rattle.ac_lines.specs.CertificateText.{annotation_entry, condition_entries, part_entries, policies_of, text_of_certificate};
ghost use Rattle.ac_certificate_writer.specs.Written.{written_of, with_entries, with_end, begun as begun_with};

use crate::draft::{Draft, write, write_entry};
use crate::proof::write_proof;
use ac_formula_printer::print_formula;
use ac_lines::{Claim, Line};
use ac_logic::Annotation;
use ac_proof::{CertPart, Certificate, ProvedCondition};
use ac_tree::PolicyName;
use indexmap::IndexSet;
use sqlite_items::Items;
use std::alloc::{AllocError, Global};

fn write_annotations(
    alloc: Global,
    draft: &mut Draft,
    policy: PolicyName,
    annotations: &[Annotation],
) -> Result<(), AllocError>
    ensures { OnOk result (written_of draft.new ≡ with_entries (written_of draft.old) (map (annotation_entry policy) annotations.now)) }
{
    for annotation in annotations {
        let place = annotation.place;
        let text = print_formula(alloc, annotation.formula.get())?;
        write_entry(alloc, draft, Claim::Annotation { policy, place }, text)?;
    }
    Ok(())
}

fn write_condition(
    alloc: Global,
    draft: &mut Draft,
    proved: &ProvedCondition,
) -> Result<(), AllocError>
    ensures { OnOk result (written_of draft.new ≡ with_entries (written_of draft.old) (condition_entries proved.now)) }
{
    let condition = &proved.condition;
    let policy = condition.policy;
    let pair = condition.pair;
    let text = print_formula(alloc, condition.formula.get())?;
    write_entry(alloc, draft, Claim::Condition { policy, pair }, text)?;
    write_proof(alloc, draft, &proved.proof)
}

fn write_conditions(
    alloc: Global,
    draft: &mut Draft,
    conditions: &[ProvedCondition],
) -> Result<(), AllocError>
    ensures { OnOk result (written_of draft.new ≡ with_entries (written_of draft.old) (flat_map condition_entries conditions.now)) }
{
    for proved in conditions {
        write_condition(alloc, draft, proved)?;
    }
    Ok(())
}

#[tactic(auto, using(crate::proofs::Entries::with_both))]
fn write_part(alloc: Global, draft: &mut Draft, part: &CertPart) -> Result<(), AllocError>
    ensures { OnOk result (written_of draft.new ≡ with_entries (written_of draft.old) (part_entries part.now)) }
{
    write_annotations(alloc, draft, part.policy, part.annotations.as_slice())?;
    write_conditions(alloc, draft, part.conditions.as_slice())
}

fn write_parts(alloc: Global, draft: &mut Draft, parts: &[CertPart]) -> Result<(), AllocError>
    ensures { OnOk result (written_of draft.new ≡ with_entries (written_of draft.old) (flat_map part_entries parts.now)) }
{
    for part in parts {
        write_part(alloc, draft, part)?;
    }
    Ok(())
}

fn policies(alloc: Global, parts: &[CertPart]) -> Result<Items<PolicyName>, AllocError>
    ensures { IfOk result (λ names. names ≡ map (λ p. p.policy) parts.now) }
{
    let mut names = Vec::new(alloc);
    for part in parts {
        names.push(part.policy)?;
    }
    Ok(Items::from_vec(names))
}

/// A draft with its header alone.
fn begun(alloc: Global, certificate: &Certificate) -> Result<Draft, AllocError>
    ensures { IfOk result (λ draft. written_of draft ≡ begun_with (policies_of certificate.now)) }
{
    let mut draft = Draft {
        out: String::new(alloc),
        given: IndexSet::new(alloc),
        conditions: 0,
        steps: 0,
    };
    let policies = policies(alloc, certificate.parts.as_slice())?;
    write(alloc, &mut draft, &Line::Header { policies })?;
    Ok(draft)
}

/// The text of a draft with its end line.
fn ended(alloc: Global, draft: Draft) -> Result<String, AllocError>
    ensures { IfOk result (λ text. string_bytes text ≡ (with_end (written_of draft)).bytes) }
{
    let mut draft = draft;
    let conditions = draft.conditions;
    let steps = draft.steps;
    write(alloc, &mut draft, &Line::End { conditions, steps })?;
    let Draft { out, .. } = draft;
    Ok(out)
}

/// The text of a certificate, whatever the certificate is: nothing is asked of its formulas or its proofs.
pub fn write_certificate(alloc: Global, certificate: &Certificate) -> Result<Vec<u8>, AllocError>
    ensures { IfOk result (λ bytes. bytes.items ≡ text_of_certificate certificate.now) }
{
    let mut draft = begun(alloc, certificate)?;
    write_parts(alloc, &mut draft, certificate.parts.as_slice())?;
    let text = ended(alloc, draft)?;
    Ok(text.into_bytes())
}

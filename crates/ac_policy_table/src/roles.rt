//! The roles that a file lists: names of the language.
ghost use Rattle.std.specs.Prelude.{◌≡◌, ◌↔◌, map, option_map, IfOk, IsTrue, bytes_eq};
ghost use Rattle.std.specs.List.{list_all};
ghost use Rattle.ac_tree.specs.Tokens.{kind_of_byte, IsName};
ghost use Rattle.toml.specs.Data.{as_str};
ghost use Rattle.toml.specs.View.{view};
ghost use Rattle.ac_policy_table.specs.Values.{each, passing, are_different as are_all_different, roles_in, goes_on as goes_on_with, is_letter as is_letter_kind, is_name as is_name_text};

use crate::values::items;
use ac_tree::{ByteKind, Keyword, Name};
use indexmap::IndexSet;
use sqlite_items::Items;
use std::alloc::{AllocError, Global};
use toml::Value;

/// The roles of a list of names that has each once at most.
pub(crate) fn roles(alloc: Global, value: &Value) -> Result<Option<Items<Name>>, AllocError>
    ensures { IfOk result (λ r. r ≡ roles_in (view value.now)) }
{
    let Some(values) = items(value) else {
        return Ok(None);
    };
    let Some(roles) = role_names(alloc, values)? else {
        return Ok(None);
    };
    if !are_different(alloc, roles.as_slice())? {
        return Ok(None);
    }
    Ok(Some(roles))
}

fn role_names(alloc: Global, values: &[Value]) -> Result<Option<Items<Name>>, AllocError>
    ensures { IfOk result (λ r. r ≡ each (λ d. passing is_name_text (as_str d)) (map view values.now)) }
{
    let mut roles = Items::new(alloc);
    for value in values {
        let Some(role) = role_of(value) else {
            return Ok(None);
        };
        roles.push(Name::new(alloc, role)?)?;
    }
    Ok(Some(roles))
}

fn role_of(value: &Value) -> Option<&str>
    ensures { option_map (λ s. s.now) result ≡ passing is_name_text (as_str (view value.now)) }
{
    match value.as_str() {
        Some(text) if is_name(text) => Some(text),
        _ => None,
    }
}

/// Whether no two names are the same, with one look-up each.
fn are_different(alloc: Global, names: &[Name]) -> Result<bool, AllocError>
    ensures { IfOk result (λ different. different ≡ are_all_different bytes_eq names.now) }
{
    let mut seen = IndexSet::new(alloc);
    for name in names {
        if !seen.insert(name.clone()?)? {
            return Ok(false);
        }
    }
    Ok(true)
}

/// Whether a text is a name of the language and no reserved word.
#[tactic(auto, using(crate::proofs::Names::name_test))]
fn is_name(text: &str) -> bool
    ensures test { result ≡ is_name_text text.now }
    ensures name { IsTrue result ↔ IsName text.now }
{
    passes_as_name(text)
}

fn passes_as_name(text: &str) -> bool
    ensures { result ≡ is_name_text text.now }
{
    let [first, more @ ..] = text.as_bytes() else {
        return false;
    };
    is_letter(ByteKind::of(*first)) && all_go_on(more) && Keyword::of(text).is_none()
}

fn is_letter(kind: ByteKind) -> bool
    ensures { result ≡ is_letter_kind kind }
{
    matches!(kind, ByteKind::Letter)
}

fn all_go_on(bytes: &[u8]) -> bool
    ensures { result ≡ list_all (λ b. goes_on_with (kind_of_byte b)) bytes.now }
{
    bytes.iter().all(|byte| goes_on(ByteKind::of(*byte)))
}

fn goes_on(kind: ByteKind) -> bool
    ensures { result ≡ goes_on_with kind }
{
    matches!(
        kind,
        ByteKind::Letter | ByteKind::Digit | ByteKind::Underscore
    )
}

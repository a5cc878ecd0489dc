//! The table of one pattern.
ghost use Rattle.std.specs.Prelude.{◌≡◌, [], None, Some, option_map, IfOk};
ghost use Rattle.toml.specs.Data.{as_str};
ghost use Rattle.toml.specs.View.{view, table_view};
ghost use Rattle.ac_policy_table.specs.declared.key.PatternKey.TheVariants.{Apart, Gives};
ghost use Rattle.ac_policy_table.specs.Keys.{at_pattern as value_at};
ghost use Rattle.ac_policy_table.specs.Values.{or_absent, texts_in, pairs_in};
ghost use Rattle.ac_policy_table.specs.Patterns.{text_at, pattern_values as values_of, pattern_says, policies_at as policies_of};

use crate::entries::{at_pattern, missing_pattern_key, unknown_pattern_key};
use crate::key::PatternKey;
use crate::policies::policies;
use crate::text::Text;
use crate::values::{items, pairs, texts};
use ac_tree::PolicyName;
use sqlite_items::Items;
use std::alloc::{AllocError, Global};
use toml::{Table, Value};

/// What the table of one pattern says.
#[derive(Drop)]
pub enum PatternTable {
    /// The least key, by its bytes, that no pattern has.
    Unknown { key: Text },
    /// The first key that is required and missing.
    Missing { key: PatternKey },
    /// What stands at each key.
    Values(PatternValues),
}

/// What a pattern has at each key. `None` says that a value has another shape than its key asks for. What may be left out is
/// empty where it is left out. What the texts say is not looked at.
#[derive(Drop)]
pub struct PatternValues {
    pub apart: Option<Items<ApartPair>>,
    pub code: Option<Text>,
    pub fixed: Option<Items<Text>>,
    pub gives: Option<Option<Text>>,
    pub hot: Option<Text>,
    pub loops: Option<Items<Text>>,
    pub name: Option<Text>,
    /// One policy or more, each once, in the order in which they are written.
    pub policies: Option<Items<PolicyName>>,
}

/// An item of `apart`: a metavariable, and the name that it is to stand apart from.
#[derive(Drop)]
pub struct ApartPair {
    pub metavariable: Text,
    pub name: Text,
}

/// What the table of one pattern says.
pub(crate) fn pattern_table(alloc: Global, table: &Table) -> Result<PatternTable, AllocError>
    ensures { IfOk result (λ r. r ≡ pattern_says (table_view table.now)) }
{
    if let Some(key) = unknown_pattern_key(table) {
        let key = Text::new(alloc, key)?;
        return Ok(PatternTable::Unknown { key });
    }
    if let Some(key) = missing_pattern_key(table) {
        return Ok(PatternTable::Missing { key });
    }
    let values = pattern_values(alloc, table)?;
    Ok(PatternTable::Values(values))
}

fn pattern_values(alloc: Global, table: &Table) -> Result<PatternValues, AllocError>
    ensures { IfOk result (λ r. r ≡ values_of (table_view table.now)) }
{
    let code = text_at_key(alloc, table, PatternKey::Code)?;
    let gives = gives_at_key(alloc, table)?;
    let hot = text_at_key(alloc, table, PatternKey::Hot)?;
    let name = text_at_key(alloc, table, PatternKey::Name)?;
    let policies = policies_at_key(alloc, table)?;
    let fixed = texts_at_key(alloc, table, PatternKey::Fixed)?;
    let loops = texts_at_key(alloc, table, PatternKey::Loops)?;
    let apart = pairs_at_key(alloc, table)?;
    Ok(PatternValues {
        apart,
        code,
        fixed,
        gives,
        hot,
        loops,
        name,
        policies,
    })
}

fn text_at_key(alloc: Global, table: &Table, key: PatternKey) -> Result<Option<Text>, AllocError>
    ensures { IfOk result (λ r. r ≡ text_at key (table_view table.now)) }
{
    match at_pattern(table, key) {
        Some(value) => text(alloc, value),
        None => Ok(None),
    }
}

fn text(alloc: Global, value: &Value) -> Result<Option<Text>, AllocError>
    ensures { IfOk result (λ r. r ≡ as_str (view value.now)) }
{
    match value.as_str() {
        Some(text) => Ok(Some(Text::new(alloc, text)?)),
        None => Ok(None),
    }
}

fn gives_at_key(alloc: Global, table: &Table) -> Result<Option<Option<Text>>, AllocError>
    ensures { IfOk result (λ r. r ≡ or_absent None (λ d. option_map Some (as_str d)) (value_at Gives (table_view table.now))) }
{
    match at_pattern(table, PatternKey::Gives) {
        Some(value) => given(alloc, value),
        None => Ok(Some(None)),
    }
}

fn given(alloc: Global, value: &Value) -> Result<Option<Option<Text>>, AllocError>
    ensures { IfOk result (λ r. r ≡ option_map Some (as_str (view value.now))) }
{
    match value.as_str() {
        Some(text) => Ok(Some(Some(Text::new(alloc, text)?))),
        None => Ok(None),
    }
}

fn texts_at_key(
    alloc: Global,
    table: &Table,
    key: PatternKey,
) -> Result<Option<Items<Text>>, AllocError>
    ensures { IfOk result (λ r. r ≡ or_absent [] texts_in (value_at key (table_view table.now))) }
{
    match at_pattern(table, key) {
        Some(value) => list_of_texts(alloc, value),
        None => Ok(Some(Items::new(alloc))),
    }
}

fn list_of_texts(alloc: Global, value: &Value) -> Result<Option<Items<Text>>, AllocError>
    ensures { IfOk result (λ r. r ≡ texts_in (view value.now)) }
{
    match items(value) {
        Some(values) => texts(alloc, values),
        None => Ok(None),
    }
}

fn pairs_at_key(alloc: Global, table: &Table) -> Result<Option<Items<ApartPair>>, AllocError>
    ensures { IfOk result (λ r. r ≡ or_absent [] pairs_in (value_at Apart (table_view table.now))) }
{
    match at_pattern(table, PatternKey::Apart) {
        Some(value) => list_of_pairs(alloc, value),
        None => Ok(Some(Items::new(alloc))),
    }
}

fn list_of_pairs(alloc: Global, value: &Value) -> Result<Option<Items<ApartPair>>, AllocError>
    ensures { IfOk result (λ r. r ≡ pairs_in (view value.now)) }
{
    match items(value) {
        Some(values) => pairs(alloc, values),
        None => Ok(None),
    }
}

fn policies_at_key(alloc: Global, table: &Table) -> Result<Option<Items<PolicyName>>, AllocError>
    ensures { IfOk result (λ r. r ≡ policies_of (table_view table.now)) }
{
    match at_pattern(table, PatternKey::Policies) {
        Some(value) => policies(alloc, value),
        None => Ok(None),
    }
}

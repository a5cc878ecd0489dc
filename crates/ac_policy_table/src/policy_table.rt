//! The table of a policy file.
ghost use Rattle.std.specs.Prelude.{◌≡◌, true, Ok, map, is_some, filter_map, IfOk, IfErr};
ghost use Rattle.std.specs.List.{list_all};
ghost use Rattle.toml.specs.Data.{as_table};
ghost use Rattle.toml.specs.View.{view, table_view};
ghost use Rattle.ac_policy_table.specs.PolicyFile.{has_library as counts_library, policies_of, roles_of, has_version_1 as says_version_1, values_say, within_limit, table_says, file_says, IsSaid};

use crate::entries::{at_policy, missing_policy_key, unknown_policy_key};
use crate::fault::TableFault;
use crate::key::PolicyKey;
use crate::pattern_list::{are_too_many, pattern_tables, values_of_patterns};
use crate::pattern_table::PatternTable;
use crate::policies::{in_fixed_order, policies};
use crate::roles::roles;
use crate::text::Text;
use ac_tree::{LimitKind, Name, PolicyName};
use sqlite_items::Items;
use std::alloc::{AllocError, Global};
use toml::{Table, Value};

/// What a policy file says, all patterns taken as they stand.
#[derive(Drop)]
pub struct PolicyTable {
    /// The policies in their fixed order.
    pub policies: Items<PolicyName>,
    /// The roles in the order in which they are written.
    pub roles: Items<Name>,
    /// Whether the library's patterns count.
    pub has_library: bool,
    /// The patterns of the file in their order.
    pub patterns: Items<PatternTable>,
}

/// The table of a policy file's bytes, or the first thing that is wrong: the length of the file, its TOML, the least unknown
/// key, the first missing key, the first bad value, the number of its patterns.
pub fn read_policy_table(alloc: Global, bytes: &[u8]) -> Result<PolicyTable, TableFault>
    ensures table { IfOk result (λ t. file_says bytes.now ≡ Ok t) }
    ensures fault { IfErr result (λ e. IsSaid e (file_says bytes.now)) }
{
    let limit = LimitKind::PolicyBytes.number();
    if bytes.len() as u64 > limit {
        return Err(TableFault::Limit {
            which: LimitKind::PolicyBytes,
            value: limit,
        });
    }
    match toml::table_from_slice(alloc, bytes) {
        Ok(table) => read_table(alloc, &table),
        Err(error) => {
            if error.is_memory() {
                Err(TableFault::OutOfMemory)
            } else {
                Err(TableFault::NotToml)
            }
        }
    }
}

fn read_table(alloc: Global, table: &Table) -> Result<PolicyTable, TableFault>
    ensures table { IfOk result (λ t. table_says (table_view table.now) ≡ Ok t) }
    ensures fault { IfErr result (λ e. IsSaid e (table_says (table_view table.now))) }
{
    if let Some(key) = unknown_policy_key(table) {
        let key = Text::new(alloc, key)?;
        return Err(TableFault::UnknownKey { key });
    }
    if let Some(key) = missing_policy_key(table) {
        return Err(TableFault::MissingKey { key });
    }
    read_values(alloc, table)
}

fn read_values(alloc: Global, table: &Table) -> Result<PolicyTable, TableFault>
    ensures table { IfOk result (λ t. values_say (table_view table.now) ≡ Ok t) }
    ensures fault { IfErr result (λ e. IsSaid e (values_say (table_view table.now))) }
{
    let Some(has_library) = has_library(table) else {
        return Err(TableFault::BadValue {
            key: PolicyKey::Library,
        });
    };
    let Some(values) = values_of_patterns(table) else {
        return Err(TableFault::BadValue {
            key: PolicyKey::Pattern,
        });
    };
    let Some(policies) = policies_of_table(alloc, table)? else {
        return Err(TableFault::BadValue {
            key: PolicyKey::Policies,
        });
    };
    let Some(roles) = roles_of_table(alloc, table)? else {
        return Err(TableFault::BadValue {
            key: PolicyKey::Roles,
        });
    };
    if !has_version_1(table) {
        return Err(TableFault::BadValue {
            key: PolicyKey::Version,
        });
    }
    with_patterns(alloc, has_library, policies, roles, values)
}

fn with_patterns(
    alloc: Global,
    has_library: bool,
    policies: Items<PolicyName>,
    roles: Items<Name>,
    values: &[Value],
) -> Result<PolicyTable, TableFault>
    requires { list_all (λ v. is_some (as_table (view v))) values.now ≡ true }
    ensures table { IfOk result (λ t. within_limit has_library policies roles (filter_map as_table (map view values.now)) ≡ Ok t) }
    ensures fault { IfErr result (λ e. IsSaid e (within_limit has_library policies roles (filter_map as_table (map view values.now)))) }
{
    if are_too_many(values) {
        return Err(TableFault::Limit {
            which: LimitKind::Patterns,
            value: LimitKind::Patterns.number(),
        });
    }
    let policies = in_fixed_order(alloc, policies.as_slice())?;
    let patterns = pattern_tables(alloc, values)?;
    Ok(PolicyTable {
        policies,
        roles,
        has_library,
        patterns,
    })
}

fn has_library(table: &Table) -> Option<bool>
    ensures { result ≡ counts_library (table_view table.now) }
{
    match at_policy(table, PolicyKey::Library) {
        Some(value) => value.as_bool(),
        None => Some(true),
    }
}

fn policies_of_table(alloc: Global, table: &Table) -> Result<Option<Items<PolicyName>>, AllocError>
    ensures { IfOk result (λ r. r ≡ policies_of (table_view table.now)) }
{
    match at_policy(table, PolicyKey::Policies) {
        Some(value) => policies(alloc, value),
        None => Ok(None),
    }
}

fn roles_of_table(alloc: Global, table: &Table) -> Result<Option<Items<Name>>, AllocError>
    ensures { IfOk result (λ r. r ≡ roles_of (table_view table.now)) }
{
    match at_policy(table, PolicyKey::Roles) {
        Some(value) => roles(alloc, value),
        None => Ok(Some(Items::new(alloc))),
    }
}

fn has_version_1(table: &Table) -> bool
    ensures { result ≡ says_version_1 (table_view table.now) }
{
    match at_policy(table, PolicyKey::Version) {
        Some(value) => value.as_integer() == Some(1),
        None => false,
    }
}

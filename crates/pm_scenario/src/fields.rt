ghost use Rattle.std.specs.Prelude.{◌≡◌, ◌++◌, option_map, map, Some, None};
ghost use Rattle.toml.specs.Data.{get_member};
ghost use Rattle.toml.specs.View.{table_view, view};
ghost use Rattle.pm_scenario.specs.Forms.{Gives, is_listed, lesser, strange, no_strange, field_at, required, default};
ghost use Rattle.pm_scenario.specs.Forms.{text, number, as_count, count, optional};
ghost use Rattle.pm_scenario.specs.Places.{prefix_of};

use crate::ScenarioFault;
use crate::place::Place;
use pm_base::Name;
use std::alloc::Global;
use toml::{Table, Value};

fn is_listed(keys: &[&str], key: &str) -> bool
    ensures { result ≡ is_listed (map (λ s. s.now) keys.now) key.now }
{
    for listed in keys {
        if *listed == key {
            return true;
        }
    }
    false
}

/// The lesser of a key and another by their bytes, where there is another.
fn lesser<'a>(other: Option<&'a str>, key: &'a str) -> &'a str
    ensures { result.now ≡ lesser (option_map (λ s. s.now) other.entry) key.now }
{
    let Some(other) = other else {
        return key;
    };
    if key < other { key } else { other }
}

/// The least key, by its bytes, that isn't listed.
fn strange<'a>(keys: &[&str], table: &'a Table) -> Option<&'a str>
    ensures { option_map (λ s. s.now) result ≡ strange (map (λ s. s.now) keys.now) (table_view table.now) }
{
    let mut least = None;
    for (key, _) in table.iter() {
        if !is_listed(keys, key.as_str()) {
            least = Some(lesser(least, key.as_str()));
        }
    }
    least
}

/// Refuses a table that has other keys than these.
#[tactic(auto, unfolding(crate::specs::Forms::no_strange))]
pub fn no_strange(
    alloc: Global,
    place: &Place<'_>,
    keys: &[&str],
    table: &Table,
) -> Result<(), ScenarioFault>
    ensures { Gives result (no_strange (prefix_of place.now) (map (λ s. s.now) keys.now) (table_view table.now)) }
{
    match strange(keys, table) {
        None => Ok(()),
        Some(key) => Err(ScenarioFault::Strange {
            key: place.path(alloc, key)?,
        }),
    }
}

/// The value at a key.
pub fn find<'a>(table: &'a Table, key: &str) -> Option<&'a Value>
    ensures { option_map (λ v. view v.now) result ≡ get_member key.now (table_view table.now) }
{
    table.get(key)
}

/// The text at a key that is required.
pub fn text_at(
    alloc: Global,
    place: &Place<'_>,
    key: &str,
    table: &Table,
) -> Result<Name, ScenarioFault>
    ensures { Gives result (field_at (required key.now text) (prefix_of place.now) (table_view table.now)) }
{
    match find(table, key) {
        Some(value) => match value.as_str() {
            Some(text) => Ok(Name::make(alloc, text)?),
            None => Err(ScenarioFault::Kind {
                key: place.path(alloc, key)?,
            }),
        },
        None => Err(ScenarioFault::Missing {
            key: place.path(alloc, key)?,
        }),
    }
}

/// The text at a key that may be absent.
pub fn optional_text_at(
    alloc: Global,
    place: &Place<'_>,
    key: &str,
    table: &Table,
) -> Result<Option<Name>, ScenarioFault>
    ensures { Gives result
        (field_at (default key.now (optional text) None) (prefix_of place.now) (table_view table.now)) }
{
    match find(table, key) {
        Some(value) => match value.as_str() {
            Some(text) => Ok(Some(Name::make(alloc, text)?)),
            None => Err(ScenarioFault::Kind {
                key: place.path(alloc, key)?,
            }),
        },
        None => Ok(None),
    }
}

/// The integer at a key, or the default.
pub fn number_at(
    alloc: Global,
    place: &Place<'_>,
    key: &str,
    absent: i64,
    table: &Table,
) -> Result<i64, ScenarioFault>
    ensures { Gives result (field_at (default key.now number absent) (prefix_of place.now) (table_view table.now)) }
{
    match find(table, key) {
        Some(value) => match value.as_integer() {
            Some(n) => Ok(n),
            None => Err(ScenarioFault::Kind {
                key: place.path(alloc, key)?,
            }),
        },
        None => Ok(absent),
    }
}

fn as_count(value: &Value) -> Option<u64>
    ensures { result ≡ as_count (view value.now) }
{
    match value.as_integer() {
        Some(n) if n >= 0 => Some(n as u64),
        _ => None,
    }
}

/// The integer at a key, which isn't negative, or the default, where there is one.
pub fn count_at(
    alloc: Global,
    place: &Place<'_>,
    key: &str,
    absent: Option<u64>,
    table: &Table,
) -> Result<u64, ScenarioFault>
    ensures { Gives result (field_at (record { key = key.now; kind = count; absent = absent })
        (prefix_of place.now) (table_view table.now)) }
{
    match find(table, key) {
        Some(value) => match as_count(value) {
            Some(n) => Ok(n),
            None => Err(ScenarioFault::Kind {
                key: place.path(alloc, key)?,
            }),
        },
        None => match absent {
            Some(n) => Ok(n),
            None => Err(ScenarioFault::Missing {
                key: place.path(alloc, key)?,
            }),
        },
    }
}

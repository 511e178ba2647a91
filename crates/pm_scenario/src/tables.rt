ghost use Rattle.std.specs.Prelude.{◌≡◌, ◌++◌, [], option_map};
ghost use Rattle.toml.specs.View.{table_view, view, items_view};
ghost use Rattle.pm_scenario.specs.Forms.{Gives, Form, walk, field_at, default, indexed, inside};
ghost use Rattle.pm_scenario.specs.Forms.{is_table, all_tables, element, elements, tables};
ghost use Rattle.pm_scenario.specs.Places.{prefix_of};

use crate::ScenarioFault;
use crate::fields::find;
use crate::place::{Place, element_path, key_path};
use pm_base::List;
use std::alloc::Global;
use toml::{Table, Value};

/// What is read of a table whose keys are listed.
pub trait FromTable: Drop + Sized {
    ghost use Rattle.pm_scenario.specs.Forms.{Gives, Form, walk};
    ghost use Rattle.pm_scenario.specs.Places.{prefix_of};
    ghost use Rattle.toml.specs.View.{table_view};

    /// The keys and what is made of their values.
    ghost form: { Form Self };

    fn read(alloc: Global, place: &Place<'_>, table: &Table) -> Result<Self, ScenarioFault>
        ensures { Gives result (walk form (prefix_of place.now) (table_view table.now)) };
}

fn is_table(value: &Value) -> bool
    ensures { result ≡ is_table (view value.now) }
{
    matches!(value, Value::Table(_))
}

/// Refuses an array with an element that is no table.
#[tactic(auto, unfolding(crate::specs::Forms::all_tables))]
fn all_tables(alloc: Global, prefix: &str, key: &str, values: &[Value]) -> Result<(), ScenarioFault>
    ensures { Gives result (all_tables (prefix.now ++ key.now) 0 (items_view values.now)) }
{
    for (index, value) in values.iter().enumerate() {
        if !is_table(value) {
            return Err(ScenarioFault::Kind {
                key: element_path(alloc, prefix, key, index)?,
            });
        }
    }
    Ok(())
}

fn element<T: FromTable>(
    alloc: Global,
    prefix: &str,
    key: &str,
    index: usize,
    value: &Value,
) -> Result<T, ScenarioFault>
    ensures { Gives result (element T.form (indexed (prefix.now ++ key.now) index) (view value.now)) }
{
    match value.as_table() {
        Some(table) => T::read(alloc, &Place::Element { prefix, key, index }, table),
        None => Err(ScenarioFault::Kind {
            key: element_path(alloc, prefix, key, index)?,
        }),
    }
}

#[tactic(auto, using(crate::proofs::Walks::walk_laws), unfolding(crate::specs::Forms::elements))]
fn elements<T: FromTable>(
    alloc: Global,
    prefix: &str,
    key: &str,
    values: &[Value],
) -> Result<List<T>, ScenarioFault>
    ensures { Gives result (elements T.form (prefix.now ++ key.now) 0 (items_view values.now)) }
{
    let mut rows = List::new(alloc);
    for (index, value) in values.iter().enumerate() {
        let row = element(alloc, prefix, key, index, value)?;
        rows.push(row)?;
    }
    Ok(rows)
}

#[tactic(auto, unfolding(crate::specs::Forms::tables))]
fn tables<T: FromTable>(
    alloc: Global,
    prefix: &str,
    key: &str,
    value: &Value,
) -> Result<List<T>, ScenarioFault>
    ensures { Gives result (tables T.form (prefix.now ++ key.now) (view value.now)) }
{
    match value.as_array() {
        Some(values) => {
            all_tables(alloc, prefix, key, values.as_slice())?;
            elements(alloc, prefix, key, values.as_slice())
        }
        None => Err(ScenarioFault::Kind {
            key: key_path(alloc, prefix, key)?,
        }),
    }
}

/// The tables in the array at a key, none where the key is absent.
pub fn tables_at<T: FromTable>(
    alloc: Global,
    place: &Place<'_>,
    key: &str,
    table: &Table,
) -> Result<List<T>, ScenarioFault>
    ensures { Gives result
        (field_at (default key.now (tables T.form) []) (prefix_of place.now) (table_view table.now)) }
{
    match find(table, key) {
        Some(value) => {
            let prefix = place.prefix(alloc)?;
            tables(alloc, prefix.as_str(), key, value)
        }
        None => Ok(List::new(alloc)),
    }
}

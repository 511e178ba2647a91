// Tables of a document, from values.
ghost use Rattle.std.specs.Prelude.{◌≡◌, ◌<◌, ◌^◌, IfOk, OnOk, pos};
ghost use Rattle.toml.specs.Data.{integer, string};
ghost use Rattle.toml.specs.View.{table_view, view};
ghost use Rattle.pm_upgrade.specs.Tables.{put_member};

use pm_base::Memory;
use std::alloc::Global;
use toml::{Table, Value};

/// Puts a value at a key.
pub fn put(alloc: Global, table: &mut Table, key: &str, value: Value) -> Result<(), Memory>
    ensures { OnOk result (table_view table.new ≡ put_member key.now (view value) (table_view table.old)) }
{
    let key = String::from_str(alloc, key)?;
    match table.insert(key, value) {
        Ok(_) => Ok(()),
        Err(_) => Err(Memory),
    }
}

/// Puts a text at a key.
pub fn put_text(alloc: Global, table: &mut Table, key: &str, text: &str) -> Result<(), Memory>
    ensures { OnOk result (table_view table.new ≡ put_member key.now (string text.now) (table_view table.old)) }
{
    let text = String::from_str(alloc, text)?;
    put(alloc, table, key, Value::from(text))
}

/// Puts an integer at a key.
pub fn put_number(alloc: Global, table: &mut Table, key: &str, n: i64) -> Result<(), Memory>
    ensures { OnOk result (table_view table.new ≡ put_member key.now (integer n) (table_view table.old)) }
{
    put(alloc, table, key, Value::from(n))
}

/// Puts a count at a key.
pub fn put_count(alloc: Global, table: &mut Table, key: &str, n: u64) -> Result<(), Memory>
    requires { n < 2 ^ 63 }
    ensures { OnOk result (table_view table.new ≡ put_member key.now (integer (pos n)) (table_view table.old)) }
{
    put_number(alloc, table, key, n as i64)
}

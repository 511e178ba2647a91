ghost use Rattle.std.specs.Prelude.{◌≡◌, ◌++◌, IfOk, string_bytes, codes, decimal, []};
ghost use Rattle.pm_scenario.specs.Forms.{indexed};
ghost use Rattle.pm_scenario.specs.Places.{prefix_of};

use pm_base::{Memory, Name};
use std::alloc::Global;

/// Where a table stands in a document: it is the root, or an element of an array of tables whose key stands behind
/// that prefix.
#[derive(Clone, Copy)]
pub enum Place<'a> {
    Root,
    Element {
        prefix: &'a str,
        key: &'a str,
        index: usize,
    },
}

fn element_text(alloc: Global, prefix: &str, key: &str, index: usize) -> Result<String, Memory>
    ensures { IfOk result (λ s. string_bytes s ≡ indexed (prefix.now ++ key.now) index) }
{
    let mut text = String::from_str(alloc, prefix)?;
    text.push_str(key)?;
    text.push_str("[")?;
    let mut digits = itoa::Buffer::new();
    text.push_str(digits.format(index))?;
    text.push_str("]")?;
    Ok(text)
}

/// The path of a key behind a prefix.
pub fn key_path(alloc: Global, prefix: &str, key: &str) -> Result<Name, Memory>
    ensures { IfOk result (λ n. n ≡ prefix.now ++ key.now) }
{
    let mut text = String::from_str(alloc, prefix)?;
    text.push_str(key)?;
    Name::make(alloc, text.as_str())
}

/// The path of an element of the array at a key behind a prefix.
pub fn element_path(alloc: Global, prefix: &str, key: &str, index: usize) -> Result<Name, Memory>
    ensures { IfOk result (λ n. n ≡ indexed (prefix.now ++ key.now) index) }
{
    let text = element_text(alloc, prefix, key, index)?;
    Name::make(alloc, text.as_str())
}

impl Place<'_> {
    /// What stands before the table's keys.
    pub fn prefix(&self, alloc: Global) -> Result<String, Memory>
        ensures { IfOk result (λ s. string_bytes s ≡ prefix_of self.now) }
    {
        match *self {
            Place::Root => Ok(String::new(alloc)),
            Place::Element { prefix, key, index } => {
                let mut text = element_text(alloc, prefix, key, index)?;
                text.push_str(".")?;
                Ok(text)
            }
        }
    }

    /// The path of one of the table's keys.
    pub fn path(&self, alloc: Global, key: &str) -> Result<Name, Memory>
        ensures { IfOk result (λ n. n ≡ prefix_of self.now ++ key.now) }
    {
        let prefix = self.prefix(alloc)?;
        key_path(alloc, prefix.as_str(), key)
    }
}

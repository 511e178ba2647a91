ghost use Rattle.std.specs.Prelude.{◌≡◌, IfOk};

use crate::Memory;
use std::alloc::Global;
use std::marker::Model;

/// A `String` that contracts see as its bytes. Which bytes a name of the model may have is said where names are read.
#[derive(Debug, Drop)]
pub struct Name {
    text: String,
}

impl Model for Name {
    ghost use Rattle.std.specs.Prelude.{List as Seq, ℕ, string_bytes};

    ghost Value = { Seq ℕ };

    ghost view = { λ n. string_bytes n.text };
}

impl Name {
    /// A name with the text's bytes.
    pub fn make(alloc: Global, text: &str) -> Result<Name, Memory>
        ensures { IfOk result (λ name. name ≡ text.now) }
    {
        Ok(Name {
            text: String::from_str(alloc, text)?,
        })
    }

    /// The name's bytes, lent as text.
    pub fn as_str(&self) -> &str
        ensures { result.now ≡ self.now }
    {
        self.text.as_str()
    }

    /// An equal name in memory of its own.
    pub fn copy(&self, alloc: Global) -> Result<Name, Memory>
        ensures { IfOk result (λ name. name ≡ self.now) }
    {
        Name::make(alloc, self.text.as_str())
    }
}

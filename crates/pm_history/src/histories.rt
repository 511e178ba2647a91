ghost use Rattle.std.specs.Prelude.{◌≡◌, ◌<◌, [], ◌∷◌, ◌++◌, IfOk, OnOk, OnErr};
ghost use Rattle.std.specs.List.{AllByRecursion};
ghost use Rattle.pm_history.specs.Merged.{IsRising};

use pm_base::{List, Memory};
use std::alloc::Global;
use std::marker::Model;

/// A receipt: the clock that it was given, and whose message it was.
#[derive(Clone, Copy, Debug, PartialEq, Eq)]
pub struct Heard {
    pub clock: u64,
    pub from: u32,
}

/// What one process heard, in the order in which it heard it: receipts whose clocks rise. Contracts see the process and
/// the receipts.
#[derive(Debug, Drop)]
pub struct History {
    process: u32,
    heard: List<Heard>,
}

impl Model for History {
    ghost use Rattle.pm_history.specs.Stories.{Story};
    ghost use Rattle.pm_history.specs.Merged.{IsRising};

    ghost Value = { Story };

    ghost view = { λ h. record { process = h.process; heard = h.heard } };

    ghost invariant = { λ h. IsRising h.heard };
}

impl History {
    /// A process that heard nothing yet. It takes no memory.
    pub fn new(alloc: Global, process: u32) -> History
        ensures { result ≡ record { process = process; heard = [] } }
    {
        History {
            process,
            heard: List::new(alloc),
        }
    }

    /// One more receipt, with a clock above all others. After `Memory` the history is as it was.
    pub fn hear(&mut self, heard: Heard) -> Result<(), Memory>
        requires rises { AllByRecursion (λ h. h.clock < heard.clock) self.old.heard }
        ensures ok { OnOk result (self.new ≡ record self.old { heard = self.old.heard ++ heard ∷ [] }) }
        ensures err { OnErr result (self.new ≡ self.old) }
    {
        self.heard.push(heard)
    }

    /// Whose history it is.
    pub fn process(&self) -> u32
        ensures { result ≡ self.now.process }
    {
        self.process
    }

    /// The receipts in order, lent.
    pub fn heard(&self) -> &List<Heard>
        ensures { result.now ≡ self.now.heard }
    {
        &self.heard
    }

    /// Forgets all receipts. It takes no memory.
    pub fn clear(&mut self)
        ensures { self.new ≡ record self.old { heard = [] } }
    {
        self.heard.clear();
    }

    /// An equal history.
    pub fn copy(&self, alloc: Global) -> Result<History, Memory>
        ensures { IfOk result (λ copy. copy ≡ self.now) }
    {
        let heard = Vec::from_slice(alloc, self.heard.as_slice())?;
        Ok(History {
            process: self.process,
            heard: List::from_vec(heard),
        })
    }
}

/// A law of the type: in each history the clocks rise.
pub fn clocks_rise(one: &History)
    ensures { IsRising one.now.heard }
{
    let _ = &one.process;
}

ghost use Rattle.std.specs.Prelude.{◌≡◌, ◌<◌, ◌^◌, length, map};
ghost use Rattle.pm_plan.specs.Numbers.{first_wrong};

use crate::{AgentRow, ClpPart, ClpRow, VarRow};
use pm_base::{Name, is_name};

/// A row with a name.
pub trait Named {
    ghost use Rattle.std.specs.Prelude.{◌≡◌, List as Seq, ℕ};

    /// The name's bytes.
    ghost text: { Self → Seq ℕ };

    fn name(&self) -> &Name
        ensures { result.now ≡ text self.now };
}

impl Named for Name {
    ghost text = { λ n. n };

    fn name(&self) -> &Name {
        self
    }
}

impl Named for ClpRow {
    ghost text = { λ r. r.name };

    fn name(&self) -> &Name {
        &self.name
    }
}

impl Named for ClpPart {
    ghost text = { λ r. r.name };

    fn name(&self) -> &Name {
        &self.name
    }
}

impl Named for VarRow {
    ghost text = { λ r. r.name };

    fn name(&self) -> &Name {
        &self.name
    }
}

impl Named for AgentRow {
    ghost text = { λ r. r.name };

    fn name(&self) -> &Name {
        &self.name
    }
}

/// The least index whose name is no name.
#[tactic(auto, unfolding(crate::specs::Numbers::first_wrong))]
pub fn first_wrong<T: Named>(rows: &[T]) -> Option<u32>
    requires { length rows.now < 2 ^ 32 }
    ensures { result ≡ first_wrong (map T.text rows.now) }
{
    for (i, row) in rows.iter().enumerate() {
        if !is_name(row.name().as_str()) {
            return Some(i as u32);
        }
    }
    None
}

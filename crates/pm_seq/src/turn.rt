ghost use Rattle.std.specs.Prelude.{◌≡◌, ◌<◌, ◌^◌, Some, IfOk, slice_index_or, pos};
ghost use Rattle.pm_plan.specs.Limits.{IsWithinLimits};
ghost use Rattle.pm_model.specs.Runs.{changed, deed, later};

use crate::hits::hits;
use pm_base::{List, Memory, Stamp, Value, Write};
use pm_model::Deed;
use pm_plan::{AgentRow, Plan};
use pm_step::Next;
use pm_step::steps::next;
use std::alloc::Global;

/// The time after a wait, which stays within 64 bits.
pub fn later(time: u64, wait: u64) -> u64
    ensures { result ≡ later time wait }
{
    time.saturating_add(wait)
}

/// What an agent of that row does at a stamp: each query is answered from these values, until its rule acts.
pub fn deed(
    alloc: Global,
    plan: &Plan,
    values: &[Value],
    stamp: Stamp,
    row: &AgentRow,
    regs: &List<i64>,
) -> Result<Deed, Memory>
    requires limits { IsWithinLimits plan.now }
    requires time { stamp.time < 2 ^ 63 }
    ensures { IfOk result (λ d. deed (record {
      program = row.now.program;
      classes = plan.now.layout.classes;
      values = values.now;
      stamp = stamp;
      regs = regs.now;
    }) ≡ Some d) }
{
    let mut answers = List::new(alloc);
    'asking: loop {
        match next(alloc, &row.program, &plan.layout, stamp, regs, &answers)? {
            Next::Ask(query) => answers.push(hits(alloc, &plan.layout, values, &query)?)?,
            Next::Act(act) => return Ok(Deed { answers, act }),
        }
    }
}

fn value_at(values: &[Value], var: u32) -> Value
    ensures { result ≡ slice_index_or values.now var (record { x = pos 0; y = pos 0 }) }
{
    match values.get(var as usize) {
        Some(value) => *value,
        None => Value { x: 0, y: 0 },
    }
}

/// Applies the writes to the values, in order.
pub fn change_all(values: &mut List<Value>, writes: &[Write])
    ensures { values.new ≡ changed writes.now values.old }
{
    for write in writes {
        let value = value_at(values.as_slice(), write.var);
        values.set(write.var as usize, write.change.apply(value));
    }
}

// The values of a record over time.
ghost use Rattle.std.specs.Prelude.{◌≡◌, ◌++◌, ◌∷◌, [], Some, if◌then◌else◌, IfOk, OnOk};
ghost use Rattle.pm_periods.specs.Periods.{periods_from, value_after_start, values_at};
ghost use Rattle.pm_base.specs.Stamps.{is_after};
ghost use Rattle.pm_periods.specs.Walks.{ended_by, start_by};

use crate::VarRecord;
use crate::held::Held;
use pm_base::{Interval, List, Memory, Period, Stamp, Value};
use std::alloc::Global;

impl VarRecord {
    /// The values that reads after `from` see, or all reads where there is none, as periods in order. The first begins
    /// at `from`, each ends at the next stamp at which a live put stands, and the last has no end.
    pub fn periods_from(&self, alloc: Global, from: Option<Stamp>) -> Result<List<Period>, Memory>
        ensures value { IfOk result (λ periods. periods ≡ periods_from self.now.parts from) }
        ensures covers { IfOk result (λ periods. (s : Stamp) →
            values_at s periods ≡ value_after_start self.now.parts from s) }
    {
        let mut periods = List::new(alloc);
        let mut reached = Reached {
            from,
            value: self.periods[0].value,
        };
        for h in &self.periods {
            reached = pass(&mut periods, reached, h)?;
        }
        periods.push(period(reached.from, None, reached.value))?;
        Ok(periods)
    }
}

// The start of the period that isn't ended yet, and the value there.
#[derive(Clone, Copy, Debug, PartialEq, Eq)]
struct Reached {
    from: Option<Stamp>,
    value: Value,
}

// Past a period's begin, which ends the one before where it stands after the start.
fn pass(periods: &mut List<Period>, reached: Reached, h: &Held) -> Result<Reached, Memory>
    ensures next { IfOk result (λ next. next ≡
        record { from = start_by reached.from h.now.put; value = h.now.value }) }
    ensures ended { OnOk result (periods.new ≡ periods.old ++ ended_by reached.from reached.value h.now.put) }
{
    let value = h.value;
    match &h.put {
        None => Ok(Reached {
            from: reached.from,
            value,
        }),
        Some(put) => pass_put(periods, reached, put.stamp, value),
    }
}

// Past a write, which ends the period where it stands after the start.
fn pass_put(
    periods: &mut List<Period>,
    reached: Reached,
    stamp: Stamp,
    value: Value,
) -> Result<Reached, Memory>
    ensures next { IfOk result (λ next. next ≡
        record { from = if is_after reached.from stamp then Some stamp else reached.from; value = value }) }
    ensures ended { OnOk result (periods.new ≡ periods.old ++ (if is_after reached.from stamp
        then record { when = record { from = reached.from; until = Some stamp }; value = reached.value } ∷ [] else [])) }
{
    if !is_after(reached.from, stamp) {
        return Ok(Reached {
            from: reached.from,
            value,
        });
    }
    periods.push(period(reached.from, Some(stamp), reached.value))?;
    Ok(Reached {
        from: Some(stamp),
        value,
    })
}

fn is_after(from: Option<Stamp>, s: Stamp) -> bool
    ensures { result ≡ is_after from s }
{
    match from {
        Some(from) => from.is_before(&s),
        None => true,
    }
}

fn period(from: Option<Stamp>, until: Option<Stamp>, value: Value) -> Period
    ensures { result ≡ record { when = record { from = from; until = until }; value = value } }
{
    Period {
        when: Interval { from, until },
        value,
    }
}

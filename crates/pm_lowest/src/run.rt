// A lowest run.
ghost use Rattle.std.specs.Prelude.{ℕ, ◌≡◌, ◌≢◌, ◌⊎◌, ◌≤◌, ◌+◌, suc, [], false, true, None, Some, Ok, IfErr, IfOk, OnOk};
ghost use Rattle.std.specs.Io.KnownBytes.{Appends};
ghost use Rattle.pm_calm.specs.Lowest.{LowestRun, PartOfLowest, commits, is_begun};
ghost use Rattle.pm_io.specs.Causes.{AppendsPart, AppendsPrefix, Rose};
ghost use Rattle.pm_kernel.specs.Counts.{counted_on, no_counts};
ghost use Rattle.pm_kernel.specs.Runs.{IsDone, text_of};
ghost use Rattle.pm_lowest.specs.Courses.{HasClosed, HasCome, HasWritten, IsNext, IsUnderway, WentWell, ended};
ghost use Rattle.pm_lowest.specs.Runs.{IsBudgetSpent};
ghost use Rattle.pm_plan.specs.Plans.{IsValid};
ghost use Rattle.pm_sim.specs.Worlds.{committed, mail};

use crate::course::Course;
use pm_base::List;
use pm_io::Sink;
use pm_kernel::{Counts, Outcome, Ran, Wrote, write_entries};
use pm_plan::Plan;
use std::alloc::Global;

// Whether all was written; else how the run ended.
fn unless_failed(wrote: Wrote) -> Result<(), Outcome>
    ensures all { OnOk result (wrote ≡ Wrote.All) }
    ensures well { WentWell (ended result) → wrote ≡ Wrote.All }
    ensures fault { ended result ≡ Some Outcome.WriteFault → wrote ≡ Wrote.WriteFault }
    ensures failed { IfErr result (λ o. (o ≡ Outcome.WriteFault) ⊎ (o ≡ Outcome.Memory)) }
{
    match wrote {
        Wrote::All => Ok(()),
        Wrote::WriteFault => Err(Outcome::WriteFault),
        Wrote::Memory => Err(Outcome::Memory),
    }
}

// A Commit at the least line, and the lines of what it hands out.
fn close<K: Sink>(
    alloc: Global,
    plan: &Plan,
    course: &mut Course<'_>,
    counts: &mut Counts,
    out: &mut K,
) -> Result<(), Outcome>
    requires valid { IsValid plan.now }
    requires underway { IsUnderway plan.now course.old.budget course.old }
    ensures closed { OnOk result (HasClosed course.old course.new) }
    ensures some { (course.new.journal.items ≡ course.old.journal.items) ⊎ HasClosed course.old course.new }
    ensures failed { IfErr result (λ o. (o ≡ Outcome.WriteFault) ⊎ (o ≡ Outcome.Memory)) }
    ensures written { HasWritten plan.now counts.old counts.new (K.holds out.old) (K.holds out.new)
        course.old.journal.items course.new.journal.items (ended result) }
    ensures budget { course.new.budget ≡ course.old.budget }
    ensures cause { ended result ≡ Some Outcome.WriteFault → Rose (K.faults out.old) (K.faults out.new)
        ⊎ Rose (K.stalls out.old) (K.stalls out.new) }
    ensures faults { K.faults out.old ≤ K.faults out.new }
    ensures stalls { K.stalls out.old ≤ K.stalls out.new }
{
    match course.commit(alloc) {
        Ok(entries) => unless_failed(write_entries(alloc, plan, entries.as_slice(), counts, out)),
        Err(_) => Err(Outcome::Memory),
    }
}

// The Commit that comes first, where one does, and the link that is delivered at next; or how the run ended.
fn open<K: Sink>(
    alloc: Global,
    plan: &Plan,
    course: &mut Course<'_>,
    counts: &mut Counts,
    out: &mut K,
) -> Result<(u32, u32), Outcome>
    requires valid { IsValid plan.now }
    requires underway { IsUnderway plan.now course.old.budget course.old }
    ensures underway { OnOk result (IsUnderway plan.now course.old.budget course.new) }
    ensures next { IfOk result (λ l. IsNext plan.now course.new l.0 l.1) }
    ensures made { OnOk result (course.new.world.made ≡ course.old.world.made) }
    ensures come { HasCome plan.now course.old.budget course.new.journal.items (ended result) }
    ensures written { HasWritten plan.now counts.old counts.new (K.holds out.old) (K.holds out.new)
        course.old.journal.items course.new.journal.items (ended result) }
    ensures budget { course.new.budget ≡ course.old.budget }
    ensures cause { ended result ≡ Some Outcome.WriteFault → Rose (K.faults out.old) (K.faults out.new)
        ⊎ Rose (K.stalls out.old) (K.stalls out.new) }
    ensures faults { K.faults out.old ≤ K.faults out.new }
    ensures stalls { K.stalls out.old ≤ K.stalls out.new }
{
    let Some(link) = course.world.least_link() else {
        close(alloc, plan, course, counts, out)?;
        return Err(Outcome::Done);
    };
    if !course.is_due() {
        return Ok(link);
    }
    close(alloc, plan, course, counts, out)?;
    Ok(link)
}

// The Commit that comes first, where one does, and a delivery at the least link; or how the run ended.
fn step<K: Sink>(
    alloc: Global,
    plan: &Plan,
    course: &mut Course<'_>,
    counts: &mut Counts,
    out: &mut K,
) -> Result<(), Outcome>
    requires valid { IsValid plan.now }
    requires budget { course.old.budget ≤ 20000000 }
    requires underway { IsUnderway plan.now course.old.budget course.old }
    ensures underway { OnOk result (IsUnderway plan.now course.old.budget course.new) }
    ensures made { OnOk result (course.new.world.made ≡ suc course.old.world.made) }
    ensures come { HasCome plan.now course.old.budget course.new.journal.items (ended result) }
    ensures written { HasWritten plan.now counts.old counts.new (K.holds out.old) (K.holds out.new)
        course.old.journal.items course.new.journal.items (ended result) }
    ensures budget { course.new.budget ≡ course.old.budget }
    ensures cause { ended result ≡ Some Outcome.WriteFault → Rose (K.faults out.old) (K.faults out.new)
        ⊎ Rose (K.stalls out.old) (K.stalls out.new) }
    ensures faults { K.faults out.old ≤ K.faults out.new }
    ensures stalls { K.stalls out.old ≤ K.stalls out.new }
{
    let (to, from) = open(alloc, plan, course, counts, out)?;
    if course.world.made() >= course.budget {
        return Err(Outcome::BudgetSpent);
    }
    match course.deliver(alloc, to, from) {
        Ok(()) => Ok(()),
        Err(_) => Err(Outcome::Memory),
    }
}

// One step after another, until the run ends.
fn go<K: Sink>(
    alloc: Global,
    plan: &Plan,
    course: &mut Course<'_>,
    counts: &mut Counts,
    out: &mut K,
) -> Outcome
    requires valid { IsValid plan.now }
    requires budget { course.old.budget ≤ 20000000 }
    requires underway { IsUnderway plan.now course.old.budget course.old }
    ensures come { HasCome plan.now course.old.budget course.new.journal.items (Some result) }
    ensures written { HasWritten plan.now counts.old counts.new (K.holds out.old) (K.holds out.new)
        course.old.journal.items course.new.journal.items (Some result) }
    ensures cause { result ≡ Outcome.WriteFault → Rose (K.faults out.old) (K.faults out.new)
        ⊎ Rose (K.stalls out.old) (K.stalls out.new) }
    ensures faults { K.faults out.old ≤ K.faults out.new }
    ensures stalls { K.stalls out.old ≤ K.stalls out.new }
{
    'steps: loop {
        match step(alloc, plan, course, counts, out) {
            Ok(()) => {}
            Err(outcome) => return outcome,
        }
    }
}

/// Makes the lowest run of a plan with at most so many deliveries: a Commit at the least line where no event was made yet
/// or the least line has risen, and the delivery of the message of least moment, again and again. What a Commit hands out
/// is written as it is, each line by itself. It always returns. After a failed write nothing more is offered, and the
/// journal has the Commit whose lines failed; after want of memory nothing more is delivered. It spends its budget exactly
/// where as many deliveries were made and a message is left. How many a run needs no clause says.
pub fn run_lowest<K: Sink>(alloc: Global, plan: &Plan, budget: u64, out: &mut K) -> Ran
    requires valid { IsValid plan.now }
    requires budget { budget ≤ 20000000 }
    ensures journal { PartOfLowest budget plan.now result.journal }
    ensures lowest { (result.outcome ≡ Outcome.Done) ⊎ (result.outcome ≡ Outcome.BudgetSpent) →
        LowestRun budget plan.now result.journal }
    ensures whole { (result.outcome ≡ Outcome.Done) ⊎ (result.outcome ≡ Outcome.BudgetSpent) →
        Appends (K.holds out.old) (K.holds out.new) (text_of plan.now result.journal) }
    ensures part { AppendsPrefix (K.holds out.old) (K.holds out.new) (text_of plan.now result.journal) }
    ensures lacks { result.outcome ≡ Outcome.WriteFault →
        AppendsPart (K.holds out.old) (K.holds out.new) (text_of plan.now result.journal) }
    ensures done { result.outcome ≡ Outcome.Done → IsDone plan.now result.journal }
    ensures spent { result.outcome ≡ Outcome.BudgetSpent → IsBudgetSpent budget plan.now result.journal }
    ensures counts { result.outcome ≡ Outcome.Done →
        result.counts ≡ counted_on no_counts (committed plan.now result.journal) }
    ensures cause { result.outcome ≡ Outcome.WriteFault → Rose (K.faults out.old) (K.faults out.new)
        ⊎ Rose (K.stalls out.old) (K.stalls out.new) }
    ensures faults { K.faults out.old ≤ K.faults out.new }
    ensures stalls { K.stalls out.old ≤ K.stalls out.new }
{
    let mut course = match Course::begin(alloc, plan, budget) {
        Ok(course) => course,
        Err(_) => return Ran::starved(alloc),
    };
    let mut counts = Counts::none();
    let outcome = go(alloc, plan, &mut course, &mut counts, out);
    Ran {
        outcome,
        journal: List::from_vec(course.journal),
        counts,
    }
}

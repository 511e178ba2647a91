ghost use Rattle.std.specs.Prelude.{◌≡◌, ◌+◌, ◌<◌, ℕ, true, false, length, IfOk};
ghost use Rattle.pm_model.specs.Entries.{run_below};
ghost use Rattle.pm_resume.specs.Cuts.{before};
ghost use Rattle.pm_resume.specs.Reached.{acts_before, HasDone, HasReached};

use pm_base::Memory;
use pm_seq::Seq;
use std::alloc::Global;

/// Whether the next step is before that time.
fn acts_before(seq: &Seq<'_>, from: u64) -> bool
    ensures { result ≡ acts_before from seq.now.state }
{
    match seq.next_stamp() {
        Some(stamp) => stamp.time < from,
        None => false,
    }
}

/// Does the next step, if it is before that time; whether it did.
fn step_before(alloc: Global, seq: &mut Seq<'_>, from: u64) -> Result<bool, Memory>
    ensures plan { seq.new.plan ≡ seq.old.plan }
    ensures went { (n : ℕ) → HasDone seq.old.plan from n seq.old.state →
        IfOk result (λ did. did ≡ true → HasDone seq.old.plan from (n + 1) seq.new.state) }
    ensures there { (n : ℕ) → HasDone seq.old.plan from n seq.old.state →
        IfOk result (λ did. did ≡ false → HasReached seq.old.plan from n seq.new.state) }
{
    if !acts_before(seq, from) {
        return Ok(false);
    }
    let _entry = seq.step(alloc)?;
    Ok(true)
}

/// Does the steps before that time, of which the run has done none, but at most so many. Whether it has done them all.
pub fn advance(alloc: Global, seq: &mut Seq<'_>, from: u64, budget: u64) -> Result<bool, Memory>
    requires { HasDone seq.old.plan from 0 seq.old.state }
    ensures plan { seq.new.plan ≡ seq.old.plan }
    ensures there { IfOk result (λ all. all ≡ true → HasReached seq.old.plan from budget seq.new.state) }
    ensures spent { IfOk result (λ all. all ≡ false → budget < length (run_below seq.old.plan (before from))) }
{
    let mut left = budget;
    while left > 0 {
        if !step_before(alloc, seq, from)? {
            return Ok(true);
        }
        left -= 1;
    }
    Ok(!acts_before(seq, from))
}

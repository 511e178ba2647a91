// How often each variable is accessed from each communication process.
ghost use Rattle.std.specs.Prelude.{◌≡◌, ◌<◌, ◌≤◌, ◌∷◌, [], Err, IfOk, length, replicate};
ghost use Rattle.pm_base.specs.declared.rows.Entry.{Entry as TheEntry};
ghost use Rattle.pm_model.specs.Runs.{rest, sequential_run};
ghost use Rattle.pm_plan.specs.Limits.{IsWithinLimits};
ghost use Rattle.pm_place.specs.Accesses.{accesses, from, read_of, reads, run_accesses, targets};
ghost use Rattle.pm_place.specs.Tallies.{no_counts, noted, noted_all, raised};
ghost use Rattle.pm_place.specs.declared.placing.PlaceFault.TheVariants as fault;

use crate::PlaceFault;
use pm_base::{Entry, Hit, List, Memory, Sense, SenseRow, Write};
use pm_plan::Plan;
use pm_seq::Seq;
use std::alloc::Global;

/// One more at that place, where there is one.
fn raise(counts: &mut List<u64>, at: usize)
    ensures { counts.new ≡ raised counts.old at }
{
    let count = match counts.get(at) {
        Some(count) => *count,
        None => return,
    };
    counts.set(at, count.saturating_add(1));
}

/// One more access of that variable from that process.
fn note(rows: &mut Vec<List<u64>>, var: u32, home: u32)
    ensures { rows.new.items ≡ noted (record { var = var; home = home }) rows.old.items }
{
    if let Some(counts) = rows.get_mut(var as usize) {
        raise(counts, home as usize);
    }
}

/// The accesses of these writes.
fn note_writes(rows: &mut Vec<List<u64>>, home: u32, writes: &[Write])
    ensures { rows.new.items ≡ noted_all (from home (targets writes.now)) rows.old.items }
{
    for write in writes {
        note(rows, write.var, home);
    }
}

/// The access of a sense with its answer: a `read` is one of the variable of its hit, a `scan` is none.
fn note_read(rows: &mut Vec<List<u64>>, home: u32, sense: &Sense, hits: &[Hit])
    ensures { rows.new.items ≡ noted_all (from home (read_of sense.now hits.now)) rows.old.items }
{
    match sense {
        Sense::Read { .. } => if let Some(hit) = hits.first() {
            note(rows, hit.var, home);
        },
        Sense::Scan { .. } => {}
    }
}

/// The accesses of these senses, each with its answer.
fn note_reads(rows: &mut Vec<List<u64>>, home: u32, senses: &[SenseRow], answers: &[List<Hit>])
    ensures { rows.new.items ≡ noted_all (from home (reads senses.now answers.now)) rows.old.items }
{
    for (i, row) in senses.iter().enumerate() {
        let Some(hits) = answers.get(i) else {
            return;
        };
        note_read(rows, home, &row.sense, hits.as_slice());
    }
}

/// The accesses of a step.
#[tactic(auto, using(crate::proofs::Noted::noted_laws))]
fn note_entry(rows: &mut Vec<List<u64>>, plan: &Plan, entry: &Entry)
    ensures { rows.new.items ≡ noted_all (accesses plan.now entry.now) rows.old.items }
{
    let Some(agent) = plan.agents.get(entry.stamp.agent as usize) else {
        return;
    };
    let senses = agent.program.senses.as_slice();
    note_reads(rows, agent.home, senses, entry.answers.as_slice());
    note_writes(rows, agent.home, entry.writes.as_slice());
}

/// A count of 0 for each process.
fn no_counts_of_one(alloc: Global, clps: usize) -> Result<List<u64>, Memory>
    ensures { IfOk result (λ counts. counts ≡ replicate clps 0) }
{
    let counts = vec![in alloc; 0u64; clps]?;
    Ok(List::from_vec(counts))
}

/// A count of 0 for each variable and process.
fn no_counts(alloc: Global, plan: &Plan) -> Result<Vec<List<u64>>, Memory>
    ensures { IfOk result (λ rows. rows.items ≡ no_counts plan.now) }
{
    let mut rows = Vec::new(alloc);
    for _var in 0..plan.vars.len() {
        rows.push(no_counts_of_one(alloc, plan.clps.len())?)?;
    }
    Ok(rows)
}

/// How a step went.
#[derive(Clone, Copy, Debug, PartialEq, Eq)]
enum Noted {
    Step,
    End,
    Memory,
}

/// Does the next step of the run and notes what it accesses.
fn note_step(alloc: Global, plan: &Plan, seq: &mut Seq, rows: &mut Vec<List<u64>>) -> Noted
    requires { seq.old.plan ≡ plan.now }
    ensures step { result ≡ Noted.Step → (e : TheEntry)
        × (rest plan.now seq.old.state ≡ e ∷ rest plan.now seq.new.state)
        × (rows.new.items ≡ noted_all (accesses plan.now e) rows.old.items) }
    ensures end { result ≡ Noted.End → (rest plan.now seq.old.state ≡ []) × (rows.new.items ≡ rows.old.items) }
    ensures plan { seq.new.plan ≡ seq.old.plan }
{
    let entry = match seq.step(alloc) {
        Ok(Some(entry)) => entry,
        Ok(None) => return Noted::End,
        Err(_) => return Noted::Memory,
    };
    note_entry(rows, plan, &entry);
    Noted::Step
}

/// How often each variable is accessed from each process in the sequential run, which has at most `budget` steps.
pub fn tally(alloc: Global, plan: &Plan, budget: u64) -> Result<Vec<List<u64>>, PlaceFault>
    requires { IsWithinLimits plan.now }
    ensures counts { IfOk result (λ rows. rows.items ≡ noted_all (run_accesses plan.now) (no_counts plan.now)) }
    ensures within { IfOk result (λ _. length (sequential_run plan.now) ≤ budget) }
    ensures spent { result ≡ Err fault.BudgetSpent → budget < length (sequential_run plan.now) }
{
    let mut rows = no_counts(alloc, plan)?;
    let mut seq = Seq::new(alloc, plan)?;
    let mut steps: u64 = 0;
    'steps: while steps < budget {
        match note_step(alloc, plan, &mut seq, &mut rows) {
            Noted::Step => steps += 1,
            Noted::End => return Ok(rows),
            Noted::Memory => return Err(PlaceFault::Memory),
        }
    }
    if seq.done() {
        Ok(rows)
    } else {
        Err(PlaceFault::BudgetSpent)
    }
}

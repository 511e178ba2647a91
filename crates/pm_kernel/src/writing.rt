// The lines of committed entries, and how many there were.
ghost use Rattle.std.specs.Prelude.{◌≡◌, ◌≢◌, ◌⊎◌, ◌≤◌, length, ◌∷◌, []};
ghost use Rattle.std.specs.List.{flat_map};
ghost use Rattle.std.specs.Io.KnownBytes.{Appends};
ghost use Rattle.pm_io.specs.Causes.{AppendsPart, Rose};
ghost use Rattle.pm_kernel.specs.Counts.{counted, counted_on};
ghost use Rattle.pm_model.specs.Traces.{line, trace_text};

use pm_base::{Entry, Hit, List};
use pm_io::{Sink, write_whole};
use pm_plan::Plan;
use pm_trace::line;
use std::alloc::Global;

/// How many steps, hits and writes were written; each count stops at its type's end.
#[derive(Clone, Copy, Debug, PartialEq, Eq)]
pub struct Counts {
    /// Steps.
    pub steps: u64,
    /// Hits in the answers of those steps' queries.
    pub hits: u64,
    /// Writes of those steps.
    pub writes: u64,
}

/// How writing went.
#[derive(Clone, Copy, Debug, PartialEq, Eq)]
pub enum Wrote {
    /// All was written.
    All,
    /// The output failed, or took nothing.
    WriteFault,
    /// Memory ran out.
    Memory,
}

/// How many hits these answers have.
fn hits_of(answers: &[List<Hit>]) -> u64
    ensures { result ≡ counted (length (flat_map (λ a. a) answers.now)) }
{
    let mut hits: u64 = 0;
    for answer in answers {
        hits = hits.saturating_add(answer.len() as u64);
    }
    hits
}

impl Counts {
    /// Nothing yet.
    pub fn none() -> Counts
        ensures { result ≡ record { steps = 0; hits = 0; writes = 0 } }
    {
        Counts {
            steps: 0,
            hits: 0,
            writes: 0,
        }
    }

    /// One entry more.
    fn add(&mut self, entry: &Entry)
        ensures { self.new ≡ counted_on self.old (entry.now ∷ []) }
    {
        self.steps = self.steps.saturating_add(1);
        self.hits = self.hits.saturating_add(hits_of(entry.answers.as_slice()));
        self.writes = self.writes.saturating_add(entry.writes.len() as u64);
    }
}

/// Writes the line of one entry.
fn write_entry<K: Sink>(alloc: Global, plan: &Plan, entry: &Entry, out: &mut K) -> Wrote
    ensures all { result ≡ Wrote.All → Appends (K.holds out.old) (K.holds out.new) (line plan.now entry.now) }
    ensures lacks { result ≢ Wrote.All → AppendsPart (K.holds out.old) (K.holds out.new) (line plan.now entry.now) }
    ensures cause { result ≡ Wrote.WriteFault → Rose (K.faults out.old) (K.faults out.new)
        ⊎ Rose (K.stalls out.old) (K.stalls out.new) }
    ensures faults { K.faults out.old ≤ K.faults out.new }
    ensures stalls { K.stalls out.old ≤ K.stalls out.new }
{
    let bytes = match line(alloc, plan, entry) {
        Ok(bytes) => bytes,
        Err(_) => return Wrote::Memory,
    };
    match write_whole(out, bytes.as_slice()) {
        Ok(()) => Wrote::All,
        Err(_) => Wrote::WriteFault,
    }
}

/// Writes the lines of these entries, each by itself, until one can't be, and counts them.
pub fn write_entries<K: Sink>(
    alloc: Global,
    plan: &Plan,
    entries: &[Entry],
    counts: &mut Counts,
    out: &mut K,
) -> Wrote
    ensures all { result ≡ Wrote.All →
        Appends (K.holds out.old) (K.holds out.new) (trace_text plan.now entries.now) }
    ensures counts { result ≡ Wrote.All → counts.new ≡ counted_on counts.old entries.now }
    ensures lacks { result ≢ Wrote.All →
        AppendsPart (K.holds out.old) (K.holds out.new) (trace_text plan.now entries.now) }
    ensures cause { result ≡ Wrote.WriteFault → Rose (K.faults out.old) (K.faults out.new)
        ⊎ Rose (K.stalls out.old) (K.stalls out.new) }
    ensures faults { K.faults out.old ≤ K.faults out.new }
    ensures stalls { K.stalls out.old ≤ K.stalls out.new }
{
    for entry in entries {
        match write_entry(alloc, plan, entry, out) {
            Wrote::All => counts.add(entry),
            failed => return failed,
        }
    }
    Wrote::All
}

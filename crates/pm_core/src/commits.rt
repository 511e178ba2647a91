//! A Commit at the processes.
ghost use Rattle.std.specs.Prelude.{◌≡◌, ◌≤◌, ◌+◌, ◌++◌, ℕ, Some, length, map, slice_get};
ghost use Rattle.std.specs.Vec.{vec_capacity, vec_len};
ghost use Rattle.pm_saved.specs.Steps.{hand_out};
ghost use Rattle.pm_alp.specs.Views.{Process as AlpView};
ghost use Rattle.pm_core.specs.Commits.{alp_at, clp_at, handed_by};

use pm_alp::Alp;
use pm_base::{Entry, Line};
use pm_clp::Clp;

/// How many entries a Commit at that line takes from agents' processes.
pub fn count_ready(alps: &[Alp], line: Line) -> usize
    requires few { length alps.now ≤ 1024 }
    requires steps { (i : ℕ) (v : AlpView) → slice_get alps.now i ≡ Some v → length v.agent.steps ≤ 20000000 }
    ensures { result ≡ length (handed_by line alps.now) }
{
    let mut count = 0;
    for alp in alps {
        count += alp.ready(line);
    }
    count
}

// Takes what is ready out of an agent's process, to the end of a list that has room for it.
fn give_out(alp: &mut Alp, line: Line, entries: &mut Vec<Entry>)
    requires { vec_len entries.old + length (hand_out line alp.old.agent.steps) ≤ vec_capacity entries.old }
    ensures process { alp.new ≡ alp_at line alp.old }
    ensures entries { entries.new.items ≡ entries.old.items ++ hand_out line alp.old.agent.steps }
    ensures len { vec_len entries.new ≡ vec_len entries.old + length (hand_out line alp.old.agent.steps) }
    ensures room { vec_capacity entries.old ≤ vec_capacity entries.new }
{
    while let Some(entry) = alp.commit(line) {
        let _ = entries.push(entry);
    }
}

/// Commits agents' processes, and takes what they hand out to the end of a list that has room for it.
pub fn commit_alps(alps: &mut Vec<Alp>, line: Line, entries: &mut Vec<Entry>)
    requires { vec_len entries.old + length (handed_by line alps.old.items) ≤ vec_capacity entries.old }
    ensures processes { alps.new.items ≡ map (alp_at line) alps.old.items }
    ensures entries { entries.new.items ≡ entries.old.items ++ handed_by line alps.old.items }
{
    for alp in alps.iter_mut() {
        give_out(alp, line, entries);
    }
}

/// Commits communication processes.
pub fn commit_clps(clps: &mut Vec<Clp>, line: Line)
    ensures { clps.new.items ≡ map (clp_at line) clps.old.items }
{
    for clp in clps.iter_mut() {
        clp.commit(line);
    }
}

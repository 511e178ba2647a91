//! A Commit at the cells.
ghost use Rattle.std.specs.Prelude.{◌≡◌, ◌≤◌, ◌+◌, ◌++◌, IfOk, IfSome, OnErr, OnOk, length, map};
ghost use Rattle.std.specs.List.{AllByRecursion};
ghost use Rattle.std.specs.List.Sorted.{IsPermutation};
ghost use Rattle.std.specs.Vec.{vec_capacity, vec_len};
ghost use Rattle.pm_alp.specs.Views.{Process as AlpView};
ghost use Rattle.pm_core.specs.Commits.{alp_at};
ghost use Rattle.pm_model.specs.Entries.{IsInOrder};
ghost use Rattle.pm_saved.specs.Steps.{hand_out};
ghost use Rattle.pm_trace.specs.Merges.{StandsOnce};
ghost use Rattle.pm_cell.specs.Committings.{handed_at, held_at, process_at, ready_in};
ghost use Rattle.pm_cell.specs.Helds.{IsOwn, views};
ghost use Rattle.pm_cell.specs.Stands.{CellsCommit, MayCommit, handed_by};

use crate::cell::Cell;
use pm_alp::Alp;
use pm_base::{Entry, Line, List, Memory};
use pm_core::Process;
use std::alloc::Global;

// How many entries a Commit at that line takes from a process.
fn ready_at(process: &Process<'_>, line: Line) -> usize
    ensures { result ≡ length (handed_at line process.now) }
{
    match process {
        Process::Clp(_) => 0,
        Process::Alp(alp) => alp.ready(line),
    }
}

// Takes what is ready out of an agent's process, to the end of a list that has room for it.
fn give_out(alp: &mut Alp<'_>, line: Line, entries: &mut Vec<Entry>)
    requires { vec_len entries.old + length (hand_out line alp.old.agent.steps) ≤ vec_capacity entries.old }
    ensures process { alp.new ≡ alp_at line alp.old }
    ensures entries { entries.new.items ≡ entries.old.items ++ hand_out line alp.old.agent.steps }
    ensures len { vec_len entries.new ≡ vec_len entries.old + length (hand_out line alp.old.agent.steps) }
    ensures room { vec_capacity entries.old ≤ vec_capacity entries.new }
{
    while let Some(entry) = alp.commit(line) {
        let _ = entries.push(entry);
    }
}

// Commits a process, and takes what it hands out to the end of a list that has room for it.
fn commit_process(process: &mut Process<'_>, line: Line, entries: &mut Vec<Entry>)
    requires { vec_len entries.old + length (handed_at line process.old) ≤ vec_capacity entries.old }
    ensures process { process.new ≡ process_at line process.old }
    ensures entries { entries.new.items ≡ entries.old.items ++ handed_at line process.old }
    ensures len { vec_len entries.new ≡ vec_len entries.old + length (handed_at line process.old) }
    ensures room { vec_capacity entries.old ≤ vec_capacity entries.new }
{
    match process {
        Process::Clp(clp) => clp.commit(line),
        Process::Alp(alp) => give_out(alp, line, entries),
    }
}

impl<'a> Cell<'a> {
    // How many entries a Commit at that line takes from it.
    fn ready(&self, line: Line) -> usize
        ensures { result ≡ length (handed_at line self.now.process) }
    {
        ready_at(&self.process, line)
    }

    // Commits it, and takes what it hands out to the end of a list that has room for it. Its story begins anew.
    fn commit(&mut self, line: Line, entries: &mut Vec<Entry>)
        requires { vec_len entries.old + length (handed_at line self.old.process) ≤ vec_capacity entries.old }
        ensures cell { self.new ≡ held_at line self.old }
        ensures entries { entries.new.items ≡ entries.old.items ++ handed_at line self.old.process }
        ensures len { vec_len entries.new ≡ vec_len entries.old + length (handed_at line self.old.process) }
        ensures room { vec_capacity entries.old ≤ vec_capacity entries.new }
        ensures own { IsOwn self.old }
    {
        commit_process(&mut self.process, line, entries);
        self.story.clear();
    }
}

// How many entries a Commit at that line takes from these cells: none where there are more than a list can have.
fn count_ready(cells: &[Cell<'_>], line: Line) -> Option<usize>
    ensures { IfSome result (λ n. n ≡ length (ready_in line cells.now)) }
{
    let mut count: usize = 0;
    for cell in cells {
        count = count.checked_add(cell.ready(line))?;
    }
    Some(count)
}

// Commits cells, and takes what they hand out to the end of a list that has room for it.
fn commit_all(cells: &mut [Cell<'_>], line: Line, entries: &mut Vec<Entry>)
    requires { vec_len entries.old + length (ready_in line cells.old) ≤ vec_capacity entries.old }
    ensures cells { cells.new ≡ map (held_at line) cells.old }
    ensures entries { entries.new.items ≡ entries.old.items ++ ready_in line cells.old }
    ensures own { AllByRecursion IsOwn cells.old }
{
    for cell in cells.iter_mut() {
        cell.commit(line, entries);
    }
}

// Entries in order of their stamps. It takes no memory.
fn in_stamp_order(entries: Vec<Entry>) -> List<Entry>
    requires { StandsOnce entries.items }
    ensures all { IsPermutation entries.items result }
    ensures order { IsInOrder result }
{
    let mut entries = entries;
    entries.sort_unstable_by_key(|e| e.stamp);
    List::from_vec(entries)
}

/// Commits the cells at that line, where their stories begin anew. The answer is the entries that this hands out, in order
/// of their stamps. After `Memory` the cells are as they were.
pub fn commit(alloc: Global, cells: &mut [Cell<'_>], line: Line) -> Result<List<Entry>, Memory>
    requires { MayCommit line (views cells.old) }
    ensures cells { OnOk result (CellsCommit line (views cells.old) (views cells.new)) }
    ensures entries { IfOk result (λ es. es ≡ handed_by line (views cells.old)) }
    ensures unchanged { OnErr result (cells.new ≡ cells.old) }
{
    let room = count_ready(cells, line).ok_or(Memory)?;
    let mut entries = Vec::with_capacity(alloc, room)?;
    commit_all(cells, line, &mut entries);
    Ok(in_stamp_order(entries))
}

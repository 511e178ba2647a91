//! The cells of a plan at first.
ghost use Rattle.std.specs.Prelude.{◌≡◌, ◌+◌, ◌<◌, ◌≤◌, ◌^◌, [], ℕ, IfOk, OnOk, get_or, length};
ghost use Rattle.pm_ends.specs.Ends.{tos};
ghost use Rattle.pm_plan.specs.Plans.{IsValid};
ghost use Rattle.pm_sim.specs.Worlds.{clps_of};
ghost use Rattle.pm_cell.specs.Cores.{receivers_of};
ghost use Rattle.pm_cell.specs.Firsts.{AreFirst, AreProcessesOf, all_woken, first_held, first_helds, woken};
ghost use Rattle.pm_cell.specs.Helds.{IsProcessOf, views};

use crate::cell::Cell;
use pm_base::{List, Memory};
use pm_core::{Process, links, processes};
use pm_ends::{InEnds, OutEnds, Post, wires};
use pm_history::History;
use pm_message::Message;
use pm_plan::Plan;
use std::alloc::Global;
use std::mem::replace;

// Sends a process its first Wake over its own link, where it has one.
fn send_wake(outs: &mut OutEnds, number: u32, wake: Option<Message>) -> Result<(), Memory>
    ensures { OnOk result (outs.new ≡ woken number wake outs.old) }
{
    match wake {
        Some(message) => outs.send(number, Post { message, clock: 0 }),
        None => Ok(()),
    }
}

// Sends the agents' first Wakes, the first of them from that process.
fn send_wakes(
    outs: &mut Vec<OutEnds>,
    first: u32,
    wakes: List<Option<Message>>,
) -> Result<(), Memory>
    requires there { first + length wakes ≤ length outs.old.items }
    requires few { first + length wakes < 2 ^ 32 }
    ensures { OnOk result (outs.new.items ≡ all_woken first wakes outs.old.items) }
{
    let mut number = first;
    for wake in wakes.into_vec() {
        send_wake(&mut outs[number as usize], number, wake)?;
        number += 1;
    }
    Ok(())
}

// The cell of a process at first, which stands in memory of its own, and so do its out-ends.
fn first_cell<'a>(
    alloc: Global,
    plan: &'a Plan,
    number: u32,
    process: Process<'a>,
    inns: InEnds,
    outs: OutEnds,
) -> Result<Cell<'a>, Memory>
    requires valid { IsValid plan.now }
    requires there { number < clps_of plan.now + length plan.now.agents }
    requires process { IsProcessOf plan.now number process }
    requires receivers { tos outs ≡ receivers_of plan.now number }
    ensures { IfOk result (λ cell. cell ≡ first_held plan.now number process.entry inns outs) }
{
    let process = Box::new(alloc, process)?;
    let outs = Box::new(alloc, outs)?;
    Ok(Cell {
        plan,
        number,
        process,
        outs,
        inns,
        story: History::new(alloc, number),
        clock: 0,
        spoilt: false,
        window: None,
        withdrawn: 0,
    })
}

// The cells of these processes at first, each with the ends of its number.
fn first_cells<'a>(
    alloc: Global,
    plan: &'a Plan,
    processes: List<Process<'a>>,
    inns: Vec<InEnds>,
    outs: Vec<OutEnds>,
) -> Result<List<Cell<'a>>, Memory>
    requires valid { IsValid plan.now }
    requires all { AreProcessesOf plan.now processes }
    requires count { length processes ≡ clps_of plan.now + length plan.now.agents }
    requires inns { length inns.items ≡ length processes }
    requires outs { length outs.items ≡ length processes }
    requires receivers { (k : ℕ) → k < length processes → tos (get_or outs.items k []) ≡ receivers_of plan.now k }
    ensures { IfOk result (λ cells. cells ≡ first_helds plan.now 0 processes.entry inns.items outs.items) }
{
    let mut inns = inns;
    let mut outs = outs;
    let mut cells = List::new(alloc);
    let mut number = 0;
    for process in processes.into_vec() {
        let inn = replace(&mut inns[number as usize], InEnds::new(alloc));
        let out = replace(&mut outs[number as usize], OutEnds::new(alloc));
        let cell = first_cell(alloc, plan, number, process, inn, out)?;
        cells.push(cell)?;
        number += 1;
    }
    Ok(cells)
}

/// The cells of a plan at first, in order of number: they stand for its first world, in which nothing was heard. Each
/// agent's first Wake was sent over its own link.
pub fn cells<'a>(alloc: Global, plan: &'a Plan) -> Result<List<Cell<'a>>, Memory>
    requires { IsValid plan.now }
    ensures { IfOk result (λ cells. AreFirst plan.now (views cells)) }
{
    let (processes, wakes) = processes(alloc, plan)?;
    let links = links(alloc, plan)?;
    let (inns, outs) = wires(alloc, links.as_slice(), processes.len())?;
    let mut outs = outs;
    send_wakes(&mut outs, plan.clps.len() as u32, wakes)?;
    first_cells(alloc, plan, processes, inns, outs)
}

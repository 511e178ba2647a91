//! Cells that are given their turns by hand.
ghost use Rattle.std.specs.Prelude.{◌≡◌, true};
ghost use Rattle.pm_cell.specs.Firsts.{AreFirst};
ghost use Rattle.pm_cell.specs.Helds.{views};
ghost use Rattle.pm_cell.specs.Stands.{AreSound, CellCame};
ghost use Rattle.pm_ends.specs.Numbers.{Pairs};
ghost use Rattle.pm_plan.specs.Plans.{IsValid};

use crate::tests::COUNTER;
use pm_base::{Entry, Line, List, Memory, Stamp};
use pm_cell::{Cell, cells, commit, least, settle};
use pm_history::{merge, print};
use pm_plan::Plan;
use pm_scenario::read;
use pm_trace::line;
use pm_workers::{Station, Turned};
use std::alloc::{AllocError, Global};
use std::test::Fail;

/// A writer and a reader of one time at one variable; the writer has the smaller number.
const TIE: &str =
    "version = 1\nhorizon = 0\n[[clp]]\nname = \"root\"\n[[class]]\nname = \"cell\"\n[[class.var]]\nname = \"c0\"\nat = \"root\"\n[[agent]]\nname = \"w\"\nhome = \"root\"\nrule = \"set c0 = 5, 0\"\n[[agent]]\nname = \"r\"\nhome = \"root\"\nrule = \"read a = c0\"\n";

const TIE_TRACE: &str = "0 w c0:=5,0\n0 r [c0=5,0]\n";

const FIRST_STEP: &str = "0 ant [c0=0,0] c0:=1,0\n";

const ONE: Line = Line::At(Stamp { time: 1, agent: 0 });

/// Whose turn it is, turn by turn, each of which hears a message; what the stories then merge into; the least moment
/// that waits, and what a Commit there hands out; the turns behind it, and what their stories merge into.
#[derive(Drop)]
struct Row {
    name: &'static str,
    scenario: &'static str,
    turns: &'static [usize],
    journal: &'static str,
    line: Line,
    trace: &'static str,
    later: &'static [usize],
    rest: &'static str,
}

/// Process 0 is the communication process, the agents come behind it. The stories are merged by clock, one more than
/// the greater of the message's and the own, and by process at one clock.
const ROWS: [Row; 4] = [
    Row {
        name: "the write is heard before the next wake",
        scenario: COUNTER,
        turns: &[1, 0, 1, 0],
        journal: "#j d 1 1\n#j d 0 1\n#j d 1 0\n#j d 0 1\n",
        line: ONE,
        trace: FIRST_STEP,
        later: &[1, 0, 1, 0],
        rest: "#j d 1 1\n#j d 0 1\n#j d 1 0\n#j d 0 1\n",
    },
    Row {
        name: "the write is heard behind it, at the same clock; a question waits over the commit",
        scenario: COUNTER,
        turns: &[1, 0, 1, 1, 0],
        journal: "#j d 1 1\n#j d 0 1\n#j d 1 0\n#j d 0 1\n#j d 1 1\n",
        line: ONE,
        trace: FIRST_STEP,
        later: &[0],
        rest: "#j d 0 1\n",
    },
    Row {
        name: "the writer first",
        scenario: TIE,
        turns: &[1, 0, 2, 0, 2],
        journal: "#j d 1 1\n#j d 2 2\n#j d 0 1\n#j d 0 2\n#j d 2 0\n",
        line: Line::End,
        trace: TIE_TRACE,
        later: &[],
        rest: "",
    },
    Row {
        name: "the reader first, which goes back",
        scenario: TIE,
        turns: &[2, 0, 2, 1, 0, 2],
        journal: "#j d 1 1\n#j d 2 2\n#j d 0 2\n#j d 0 1\n#j d 2 0\n#j d 2 0\n",
        line: Line::End,
        trace: TIE_TRACE,
        later: &[],
        rest: "",
    },
];

/// Three of 1,024 agents at one process act, of which each begins sooner than those before it: the process hears them in
/// order of moment. Then the last agent acts, which begins first of all.
const CROWD: Row = Row {
    name: "a process of 1,024 senders",
    scenario: "",
    turns: &[6, 301, 1001, 0, 0, 0],
    journal: "#j d 6 6\n#j d 301 301\n#j d 1001 1001\n#j d 0 1001\n#j d 0 301\n#j d 0 6\n",
    line: Line::At(Stamp {
        time: 1,
        agent: 1023,
    }),
    trace: "",
    later: &[1024, 0],
    rest: "#j d 1024 1024\n#j d 0 1024\n",
};

/// The scenario of that row.
fn crowd(alloc: Global) -> Result<String, AllocError> {
    let mut text = String::from_str(
        alloc,
        "version = 1\nhorizon = 2000\n[[clp]]\nname = \"root\"\n[[class]]\nname = \"cell\"\n[[class.var]]\nname = \"c0\"\nat = \"root\"\n",
    )?;
    for k in 0..1024_u32 {
        let start = 1024 - k;
        let agent = format!(in alloc;
            "[[agent]]\nname = \"a{k}\"\nhome = \"root\"\nstart = {start}\nrule = \"set c0 = 1, 0\"\n"
        )?;
        text.push_str(agent.as_str())?;
    }
    Ok(text)
}

/// A turn for the cell at that place; whether it heard a message.
fn turn_at(alloc: Global, cells: &mut [Cell<'_>], at: usize) -> bool
    ensures { Pairs CellCame (views cells.old) (views cells.new) }
{
    if at < cells.len() {
        cells[at].turn(alloc) == Turned::Delivered
    } else {
        false
    }
}

/// Turns in that order; whether each of them heard a message.
fn give(alloc: Global, cells: &mut [Cell<'_>], turns: &[usize]) -> bool
    ensures { Pairs CellCame (views cells.old) (views cells.new) }
{
    let mut all = true;
    for at in turns {
        all = turn_at(alloc, cells, *at) && all;
    }
    all
}

/// Whether memory was wanting at none of the cells.
fn are_sound(cells: &[Cell<'_>]) -> bool
    ensures { result ≡ true → AreSound (views cells.now) }
{
    for cell in cells {
        if cell.spoilt() {
            return false;
        }
    }
    true
}

/// The lines of what the cells' stories merge into.
fn journal_of(alloc: Global, cells: &[Cell<'_>]) -> Result<Vec<u8>, Memory> {
    let mut stories = List::new(alloc);
    for cell in cells {
        stories.push(cell.history(alloc)?)?;
    }
    let journal = merge(alloc, &stories)?;
    print(alloc, &journal)
}

fn lines_of(alloc: Global, plan: &Plan, entries: &[Entry]) -> Result<Vec<u8>, Memory> {
    let mut text = Vec::new(alloc);
    for entry in entries {
        let bytes = line(alloc, plan, entry)?;
        text.extend_from_slice(bytes.as_slice())?;
    }
    Ok(text)
}

/// What a row's turns left.
#[derive(Drop)]
struct Left {
    heard: bool,
    journal: Vec<u8>,
    line: Line,
    trace: Vec<u8>,
    rest: Vec<u8>,
}

/// The turns of a row at cells that heard nothing, a Commit at the least moment that waits, and the turns behind it.
fn play(alloc: Global, plan: &Plan, cells: &mut [Cell<'_>], row: &Row) -> Result<Left, Memory>
    requires valid { IsValid plan.now }
    requires first { AreFirst plan.now (views cells.old) }
{
    let first = give(alloc, cells, row.turns);
    if !are_sound(cells) {
        return Err(Memory);
    }
    settle(alloc, cells)?;
    let journal = journal_of(alloc, cells)?;
    let line = least(cells);
    let entries = commit(alloc, cells, line)?;
    let trace = lines_of(alloc, plan, entries.as_slice())?;
    let second = give(alloc, cells, row.later);
    let rest = journal_of(alloc, cells)?;
    Ok(Left {
        heard: first && second,
        journal,
        line,
        trace,
        rest,
    })
}

fn left_of(alloc: Global, plan: &Plan, row: &Row) -> Result<Left, Memory>
    requires { IsValid plan.now }
{
    let mut cells = cells(alloc, plan)?;
    play(alloc, plan, cells.as_mut_slice(), row)
}

/// Whatever the order of the turns, the stories merge into it, and what is committed is the sequential run.
#[test]
fn turns_by_hand(rt: HostRuntime) -> Result<(), Fail> {
    let alloc = rt.alloc();
    for row in &ROWS {
        let name = row.name;
        let bytes = row.scenario.as_bytes();
        assert!(rt; bytes.len() < 10_000);
        let plan = read(alloc, bytes).map_err(|_| AllocError)?;
        let left = left_of(alloc, &plan, row).map_err(|_| AllocError)?;
        assert!(rt; left.heard, "{name}");
        assert!(rt; left.journal.as_slice() == row.journal.as_bytes(), "{name}");
        assert!(rt; left.line == row.line, "{name}");
        assert!(rt; left.trace.as_slice() == row.trace.as_bytes(), "{name}");
        assert!(rt; left.rest.as_slice() == row.rest.as_bytes(), "{name}");
    }
    Ok(())
}

/// An awaited Wake that isn't below the window waits until the window is gone.
#[test]
fn windows_keep_wakes_back(rt: HostRuntime) -> Result<(), Fail> {
    let alloc = rt.alloc();
    let bytes = COUNTER.as_bytes();
    assert!(rt; bytes.len() < 10_000);
    let plan = read(alloc, bytes).map_err(|_| AllocError)?;
    let mut cells = cells(alloc, &plan).map_err(|_| AllocError)?;
    let begin = Line::At(Stamp { time: 0, agent: 0 });
    for cell in cells.as_mut_slice() {
        cell.set_window(Some(begin));
        assert!(rt; cell.turn(alloc) == Turned::Nothing);
        cell.set_window(None);
        let wakes = cell.number() == 1;
        assert!(rt; (cell.turn(alloc) == Turned::Delivered) == wakes);
    }
    Ok(())
}

/// A process hears the soonest of what its senders sent, however many they are.
#[test]
fn a_turn_hears_the_soonest_of_1_024_senders(rt: HostRuntime) -> Result<(), Fail> {
    let alloc = rt.alloc();
    let text = crowd(alloc)?;
    let bytes = text.as_bytes();
    assert!(rt; bytes.len() < 1_000_000);
    let plan = read(alloc, bytes).map_err(|_| AllocError)?;
    let left = left_of(alloc, &plan, &CROWD).map_err(|_| AllocError)?;
    assert!(rt; left.heard && left.line == CROWD.line);
    assert!(rt; left.journal.as_slice() == CROWD.journal.as_bytes());
    assert!(rt; left.trace.is_empty() && left.rest.as_slice() == CROWD.rest.as_bytes());
    Ok(())
}

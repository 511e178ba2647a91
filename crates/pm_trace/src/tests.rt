ghost use Rattle.std.specs.Prelude.{◌≡◌, ◌∷◌, [], IfOk, List as Seq};
ghost use Rattle.std.specs.List.{AllByRecursion, flat_map};
ghost use Rattle.pm_base.specs.declared.rows.Entry.{Entry as TheEntry};
ghost use Rattle.pm_model.specs.Entries.{IsInOrder};
ghost use Rattle.pm_trace.specs.Merges.{StandsOnce};

use crate::{end_line, line, merge};
use pm_base::{Change, Entry, Hit, Layout, List, Memory, Name, Program, Stamp, Value, Write};
use pm_plan::{AgentRow, Plan, VarRow};
use std::alloc::Global;
use std::test::Fail;

fn var(alloc: Global, name: &str) -> Result<VarRow, Memory> {
    Ok(VarRow {
        name: Name::make(alloc, name)?,
        at: 0,
        value: Value { x: 0, y: 0 },
    })
}

/// Two variables and an agent; no line looks at the rest.
fn plan(alloc: Global) -> Result<Plan, Memory> {
    let program = Program {
        regs: List::new(alloc),
        senses: List::new(alloc),
        body: List::new(alloc),
    };
    let ant = AgentRow {
        name: Name::make(alloc, "ant")?,
        home: 0,
        start: 0,
        program,
    };
    let mut vars = List::new(alloc);
    vars.push(var(alloc, "c0")?)?;
    vars.push(var(alloc, "c1")?)?;
    let mut agents = List::new(alloc);
    agents.push(ant)?;
    Ok(Plan {
        horizon: 0,
        move_after: 0,
        clps: List::new(alloc),
        layout: Layout {
            classes: List::new(alloc),
        },
        classes: List::new(alloc),
        vars,
        agents,
    })
}

/// A step that sensed nothing, and then two variables; it sets one and adds to the other.
fn sample(alloc: Global) -> Result<Entry, Memory> {
    let low = Value { x: 0, y: i64::MIN };
    let high = Value { x: -1, y: i64::MAX };
    let ends = Value {
        x: i64::MAX,
        y: i64::MIN,
    };
    let mut hits = List::new(alloc);
    hits.push(Hit {
        var: 0,
        value: high,
    })?;
    hits.push(Hit { var: 1, value: low })?;
    let mut answers = List::new(alloc);
    answers.push(List::new(alloc))?;
    answers.push(hits)?;
    let mut writes = List::new(alloc);
    writes.push(Write {
        var: 0,
        change: Change::Set(Value { x: -5, y: 0 }),
    })?;
    writes.push(Write {
        var: 1,
        change: Change::Add(ends),
    })?;
    Ok(Entry {
        stamp: Stamp { time: 12, agent: 0 },
        answers,
        writes,
    })
}

#[test]
fn lines_of_a_trace(rt: HostRuntime) -> Result<(), Fail> {
    let alloc = rt.alloc();
    let text = line(alloc, &plan(alloc)?, &sample(alloc)?)?;
    let want =
        b"12 ant [] [c0=-1,9223372036854775807;c1=0,-9223372036854775808] c0:=-5,0 c1+=9223372036854775807,-9223372036854775808\n";
    assert!(rt; text.as_slice() == want.as_slice());
    assert!(rt;
        end_line(alloc, 18446744073709551615)?.as_slice()
            == b"end 18446744073709551615\n".as_slice()
    );
    Ok(())
}

fn entry(alloc: Global, time: u64, agent: u32) -> Result<Entry, Memory>
    ensures { IfOk result (λ e. e.stamp ≡ record { time = time; agent = agent }) }
{
    Ok(Entry {
        stamp: Stamp { time, agent },
        answers: List::new(alloc),
        writes: List::new(alloc),
    })
}

fn one(alloc: Global, a: Entry) -> Result<List<Entry>, Memory>
    ensures { IfOk result (λ l. l ≡ a ∷ []) }
{
    let mut list = List::new(alloc);
    list.push(a)?;
    Ok(list)
}

fn two(alloc: Global, a: Entry, b: Entry) -> Result<List<Entry>, Memory>
    ensures { IfOk result (λ l. l ≡ a ∷ b ∷ []) }
{
    let mut list = one(alloc, a)?;
    list.push(b)?;
    Ok(list)
}

/// Two agents that act at the times 0 and 5.
fn two_lists(alloc: Global) -> Result<List<List<Entry>>, Memory>
    ensures order { IfOk result (AllByRecursion IsInOrder) }
    ensures once { IfOk result (λ ls. StandsOnce (flat_map (λ (l : Seq TheEntry). l) ls)) }
{
    let mut lists = List::new(alloc);
    lists.push(two(alloc, entry(alloc, 0, 1)?, entry(alloc, 5, 1)?)?)?;
    lists.push(two(alloc, entry(alloc, 0, 0)?, entry(alloc, 5, 0)?)?)?;
    Ok(lists)
}

/// Three agents that act at the time 5.
fn three_lists(alloc: Global) -> Result<List<List<Entry>>, Memory>
    ensures order { IfOk result (AllByRecursion IsInOrder) }
    ensures once { IfOk result (λ ls. StandsOnce (flat_map (λ (l : Seq TheEntry). l) ls)) }
{
    let mut lists = List::new(alloc);
    lists.push(one(alloc, entry(alloc, 5, 2)?)?)?;
    lists.push(one(alloc, entry(alloc, 5, 0)?)?)?;
    lists.push(one(alloc, entry(alloc, 5, 1)?)?)?;
    Ok(lists)
}

#[test]
fn lists_are_merged(rt: HostRuntime) -> Result<(), Fail> {
    let alloc = rt.alloc();
    let merged = merge(alloc, two_lists(alloc)?)?;
    let want = [(0, 0), (0, 1), (5, 0), (5, 1)];
    assert_eq!(rt; merged.len(), want.len());
    for (entry, (time, agent)) in merged.as_slice().iter().zip(want) {
        assert_eq!(rt; entry.stamp, Stamp { time, agent });
    }
    let merged = merge(alloc, three_lists(alloc)?)?;
    let want = [(5, 0), (5, 1), (5, 2)];
    assert_eq!(rt; merged.len(), want.len());
    for (entry, (time, agent)) in merged.as_slice().iter().zip(want) {
        assert_eq!(rt; entry.stamp, Stamp { time, agent });
    }
    Ok(())
}

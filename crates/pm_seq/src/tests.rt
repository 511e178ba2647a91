ghost use Rattle.std.specs.Prelude.{◌≡◌, ◌≤◌, ◌∷◌, [], length, IfOk};
ghost use Rattle.pm_base.specs.Layouts.{IsLayout};
ghost use Rattle.pm_plan.specs.Limits.{IsWithinLimits};

use crate::Seq;
use pm_base::{
    Change, ClassRow, Entry, Expr, Hit, Layout, List, Memory, Name, Place, Program, Sense,
    SenseRow, Stamp, Stmt, Value, Write,
};
use pm_plan::{AgentRow, ClpRow, Plan, VarRow};
use std::alloc::Global;
use std::test::Fail;

fn one<T: Drop>(alloc: Global, item: T) -> Result<List<T>, Memory>
    ensures { IfOk result (λ l. l ≡ item ∷ []) }
{
    let mut items = List::new(alloc);
    items.push(item)?;
    Ok(items)
}

fn value(x: i64, y: i64) -> Value {
    Value { x, y }
}

/// A rule that adds to variable 0.
fn adding(alloc: Global, x: i64, y: i64) -> Result<Program, Memory> {
    let add = Stmt::Add {
        place: Place::Var { var: 0 },
        x: Expr::Num(x),
        y: Expr::Num(y),
    };
    Ok(Program {
        regs: List::new(alloc),
        senses: List::new(alloc),
        body: one(alloc, add)?,
    })
}

/// A scan of class 0 in the window of these ends, all on the line y = -1.
fn scan(alloc: Global, x0: i64, x1: i64) -> Result<SenseRow, Memory> {
    Ok(SenseRow {
        name: Name::make(alloc, "s")?,
        sense: Sense::Scan {
            class: 0,
            x0: Expr::Num(x0),
            x1: Expr::Num(x1),
            y0: Expr::Num(-1),
            y1: Expr::Num(-1),
        },
    })
}

/// A rule that reads variable 0, and scans its class in a window that holds it and in an inverted one.
fn reading(alloc: Global) -> Result<Program, Memory> {
    let read = SenseRow {
        name: Name::make(alloc, "a")?,
        sense: Sense::Read {
            place: Place::Var { var: 0 },
        },
    };
    let mut senses = one(alloc, read)?;
    senses.push(scan(alloc, 0, 9)?)?;
    senses.push(scan(alloc, 9, 0)?)?;
    Ok(Program {
        regs: List::new(alloc),
        senses,
        body: List::new(alloc),
    })
}

fn agent(alloc: Global, program: Program) -> Result<AgentRow, Memory> {
    Ok(AgentRow {
        name: Name::make(alloc, "g")?,
        home: 0,
        start: 0,
        program,
    })
}

/// One class of one variable.
fn layout(alloc: Global) -> Result<Layout, Memory>
    ensures follow { IfOk result IsLayout }
    ensures one { IfOk result (λ l. length l.classes ≤ 1) }
{
    let mut classes = List::new(alloc);
    classes.push(ClassRow { first: 0, count: 1 })?;
    Ok(Layout { classes })
}

/// A plan of one process, one variable and these agents, with time 0 as the only one.
fn plan_of(
    layout: Layout,
    clps: List<ClpRow>,
    classes: List<Name>,
    vars: List<VarRow>,
    agents: List<AgentRow>,
) -> Plan
    requires layout { IsLayout layout }
    requires classes { length layout.classes ≤ 1 }
    requires clps { length clps ≤ 1 }
    requires vars { length vars ≤ 1 }
    requires agents { length agents ≤ 3 }
    ensures { IsWithinLimits result }
{
    Plan {
        horizon: 0,
        move_after: 0,
        clps,
        layout,
        classes,
        vars,
        agents,
    }
}

/// Two agents that add to variable 0, and one that looks at it.
fn agents(alloc: Global) -> Result<List<AgentRow>, Memory>
    ensures { IfOk result (λ l. length l ≤ 3) }
{
    let mut agents = List::new(alloc);
    agents.push(agent(alloc, adding(alloc, 3, 0)?)?)?;
    agents.push(agent(alloc, adding(alloc, 4, -1)?)?)?;
    agents.push(agent(alloc, reading(alloc)?)?)?;
    Ok(agents)
}

fn clp(alloc: Global) -> Result<ClpRow, Memory> {
    Ok(ClpRow {
        name: Name::make(alloc, "root")?,
        parent: None,
    })
}

fn var(alloc: Global) -> Result<VarRow, Memory> {
    Ok(VarRow {
        name: Name::make(alloc, "c0")?,
        at: 0,
        value: value(0, 0),
    })
}

/// Three agents at time 0, the only one: two add to variable 0, and the last one looks at it.
fn adders(alloc: Global) -> Result<Plan, Memory>
    ensures { IfOk result IsWithinLimits }
{
    let clps = one(alloc, clp(alloc)?)?;
    let classes = one(alloc, Name::make(alloc, "cell")?)?;
    let vars = one(alloc, var(alloc)?)?;
    Ok(plan_of(layout(alloc)?, clps, classes, vars, agents(alloc)?))
}

fn next(alloc: Global, seq: &mut Seq) -> Result<Entry, Fail> {
    match seq.step(alloc)? {
        Some(entry) => Ok(entry),
        None => Err(Fail::new("all are retired")),
    }
}

fn added(x: i64, y: i64) -> [Write; 1] {
    [Write {
        var: 0,
        change: Change::Add(value(x, y)),
    }]
}

#[test]
fn agents_act_in_turn(rt: HostRuntime) -> Result<(), Fail> {
    let alloc = rt.alloc();
    let plan = adders(alloc)?;
    let mut seq = Seq::new(alloc, &plan)?;
    for (agent, x, y) in [(0, 3, 0), (1, 4, -1)] {
        assert!(rt; !seq.done());
        let entry = next(alloc, &mut seq)?;
        assert_eq!(rt; entry.stamp, Stamp { time: 0, agent });
        assert_eq!(rt; entry.answers.len(), 0);
        assert_eq!(rt; entry.writes.as_slice(), added(x, y).as_slice());
    }
    let last = next(alloc, &mut seq)?;
    assert_eq!(rt; last.stamp, Stamp { time: 0, agent: 2 });
    assert_eq!(rt; last.writes.len(), 0);
    let hit = [Hit {
        var: 0,
        value: value(7, -1),
    }];
    let want = [hit.as_slice(), hit.as_slice(), [].as_slice()];
    assert_eq!(rt; last.answers.len(), want.len());
    for (answer, want) in last.answers.as_slice().iter().zip(want) {
        assert_eq!(rt; answer.as_slice(), want);
    }
    assert!(rt; seq.done());
    assert!(rt; seq.step(alloc)?.is_none());
    Ok(())
}

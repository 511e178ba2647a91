ghost use Rattle.std.specs.Prelude.{◌≡◌, ◌<◌, ◌^◌, true, List as Seq, length, IfOk};
ghost use Rattle.pm_base.specs.Fits.{fits};
ghost use Rattle.pm_base.specs.declared.layout.Layout.{Layout};
ghost use Rattle.pm_plan.specs.Plans.{IsValid, all_vars, rules_fit};
ghost use Rattle.pm_plan.specs.declared.parts.ClassPart.{ClassPart as TheClass};

use crate::{AgentPart, ClassPart, ClpPart, Kind, Plan, PlanFault, PlanParts, VarPart};
use pm_base::{List, Memory, Name, Program, Value};
use std::alloc::Global;
use std::test::Fail;

type Pairs<'a> = &'a [(&'a str, &'a str)];

type Classes<'a> = &'a [(&'a str, Pairs<'a>)];

type Agents<'a> = &'a [(&'a str, &'a str, u64)];

/// Parts in short: the horizon; processes with their parents, where the empty text stands for no parent; classes with
/// their variables, and each variable's process; agents with their homes and starts. The name `?` is given beside it.
#[derive(Drop)]
struct Sketch<'a>(u64, Pairs<'a>, Classes<'a>, Agents<'a>);

const LAST: u64 = 1_000_000_000_000;

/// A name as long as one may be, and one that is longer.
const LONG: &str = "abcdefghijklmnopqrstuvwxyz_01234";

const LONGER: &str = "abcdefghijklmnopqrstuvwxyz_012345";

const ONE: Pairs<'static> = &[("a", "")];

const BARE: (&str, Pairs<'static>) = ("c", &[]);

type Refusals = &'static [(Option<PlanFault>, &'static [Sketch<'static>])];

const LIMITS: Refusals = &[
    (
        None,
        &[
            Sketch(LAST, ONE, &[], &[("g", "a", LAST)]),
            Sketch(0, ONE, &[("a", &[("a", "a")])], &[("a", "a", 0)]),
            Sketch(
                9,
                &[(LONG, "")],
                &[(LONG, &[(LONG, LONG)])],
                &[(LONG, LONG, 0)],
            ),
        ],
    ),
    (
        Some(PlanFault::Limit { kind: Kind::Clp }),
        &[Sketch(9, &[], &[], &[]), Sketch(LAST + 1, &[], &[], &[])],
    ),
    (
        Some(PlanFault::Limit { kind: Kind::Class }),
        &[Sketch(LAST + 1, ONE, &[BARE; 65], &[])],
    ),
    (
        Some(PlanFault::Limit { kind: Kind::Time }),
        &[
            Sketch(LAST + 1, ONE, &[], &[]),
            Sketch(9, ONE, &[], &[("g", "a", 0), ("h", "a", LAST + 1)]),
            Sketch(LAST + 1, &[("A", "")], &[], &[]),
        ],
    ),
];

/// What is no name.
const WRONG: &[&str] = &[LONGER, "", "2b", "_b", "bB", "b-c"];

const NAMES: Refusals = &[
    (
        Some(PlanFault::Name {
            kind: Kind::Clp,
            index: 1,
        }),
        &[
            Sketch(9, &[("a", ""), ("?", "a")], &[], &[]),
            Sketch(9, &[("a", ""), ("?", "a"), ("C", "a")], &[("?", &[])], &[]),
        ],
    ),
    (
        Some(PlanFault::Name {
            kind: Kind::Class,
            index: 1,
        }),
        &[
            Sketch(9, ONE, &[("c", &[]), ("?", &[])], &[]),
            Sketch(9, ONE, &[("c", &[("?", "a")]), ("?", &[])], &[]),
        ],
    ),
    (
        Some(PlanFault::Name {
            kind: Kind::Var,
            index: 1,
        }),
        &[
            Sketch(9, ONE, &[("c", &[("v", "a")]), ("d", &[("?", "a")])], &[]),
            Sketch(
                9,
                ONE,
                &[("c", &[("v", "a"), ("?", "a")])],
                &[("?", "a", 0)],
            ),
        ],
    ),
    (
        Some(PlanFault::Name {
            kind: Kind::Agent,
            index: 1,
        }),
        &[
            Sketch(9, ONE, &[], &[("g", "a", 0), ("?", "a", 0)]),
            Sketch(
                9,
                &[("a", ""), ("a", "a")],
                &[],
                &[("g", "a", 0), ("?", "a", 0)],
            ),
        ],
    ),
];

const REPEATS: Refusals = &[
    (
        Some(PlanFault::Twice {
            kind: Kind::Clp,
            index: 1,
        }),
        &[
            Sketch(9, &[("a", ""), ("a", "a")], &[], &[]),
            Sketch(9, &[("a", ""), ("a", "a")], &[("c", &[]), ("c", &[])], &[]),
        ],
    ),
    (
        Some(PlanFault::Twice {
            kind: Kind::Class,
            index: 1,
        }),
        &[
            Sketch(9, ONE, &[BARE, BARE], &[]),
            Sketch(9, ONE, &[("c", &[("v", "a")]), ("c", &[("v", "a")])], &[]),
            Sketch(9, ONE, &[("c", &[("v", "a"); 2]), ("c", &[])], &[]),
            Sketch(9, ONE, &[BARE; 64], &[]),
        ],
    ),
    (
        Some(PlanFault::Twice {
            kind: Kind::Var,
            index: 2,
        }),
        &[
            Sketch(
                9,
                ONE,
                &[("c", &[("v", "a"), ("w", "a")]), ("d", &[("v", "a")])],
                &[],
            ),
            Sketch(
                9,
                ONE,
                &[("c", &[("v", "a"), ("w", "a"), ("w", "a")])],
                &[("g", "a", 0); 2],
            ),
        ],
    ),
    (
        Some(PlanFault::Twice {
            kind: Kind::Agent,
            index: 1,
        }),
        &[
            Sketch(9, ONE, &[], &[("g", "a", 0); 2]),
            Sketch(9, &[("a", "b")], &[], &[("g", "a", 0); 2]),
        ],
    ),
    (
        Some(PlanFault::Twice {
            kind: Kind::Agent,
            index: 2,
        }),
        &[Sketch(
            9,
            ONE,
            &[("c", &[("v", "a")])],
            &[("g", "a", 0), ("h", "a", 0), ("g", "a", 0)],
        )],
    ),
];

/// How many variables there are and how many agents, all of a kind with one name, and what refuses them.
const CROWDS: &[(usize, usize, PlanFault)] = &[
    (
        4096,
        0,
        PlanFault::Twice {
            kind: Kind::Var,
            index: 1,
        },
    ),
    (4097, 0, PlanFault::Limit { kind: Kind::Var }),
    (
        0,
        1024,
        PlanFault::Twice {
            kind: Kind::Agent,
            index: 1,
        },
    ),
    (0, 1025, PlanFault::Limit { kind: Kind::Agent }),
    (4096, 1025, PlanFault::Limit { kind: Kind::Agent }),
    (4097, 1025, PlanFault::Limit { kind: Kind::Var }),
];

const TREES_AND_PLACES: Refusals = &[
    (
        Some(PlanFault::Tree { clp: 0 }),
        &[
            Sketch(9, &[("a", "a")], &[], &[]),
            Sketch(9, &[("a", "b")], &[], &[]),
            Sketch(9, &[("a", "b"), ("b", "a")], &[], &[]),
            Sketch(
                9,
                &[("a", "b"), ("b", "c"), ("c", "b"), ("d", "")],
                &[],
                &[],
            ),
            Sketch(9, &[("a", "a")], &[("c", &[("v", "b")])], &[]),
        ],
    ),
    (
        Some(PlanFault::Tree { clp: 1 }),
        &[
            Sketch(9, &[("a", ""), ("b", "b")], &[], &[]),
            Sketch(9, &[("a", ""), ("b", "c"), ("c", "b")], &[], &[]),
            Sketch(9, &[("a", ""), ("b", "")], &[], &[]),
            Sketch(9, &[("a", "b"), ("b", "x"), ("c", "")], &[], &[]),
            Sketch(9, &[("a", ""), ("b", "x"), ("c", "c"), ("d", "")], &[], &[]),
        ],
    ),
    (
        Some(PlanFault::Tree { clp: 2 }),
        &[
            Sketch(9, &[("a", ""), ("b", "a"), ("c", "")], &[], &[]),
            Sketch(9, &[("a", "b"), ("b", ""), ("c", "")], &[], &[]),
        ],
    ),
    (
        Some(PlanFault::Place {
            kind: Kind::Var,
            index: 1,
        }),
        &[
            Sketch(
                9,
                ONE,
                &[("c", &[("v", "a")]), ("d", &[("w", "b"), ("x", "b")])],
                &[],
            ),
            Sketch(
                9,
                ONE,
                &[("c", &[("v", "a"), ("w", "v")])],
                &[("g", "b", 0)],
            ),
        ],
    ),
    (
        Some(PlanFault::Place {
            kind: Kind::Agent,
            index: 1,
        }),
        &[
            Sketch(9, ONE, &[], &[("g", "a", 0), ("h", "b", 0), ("i", "b", 0)]),
            Sketch(9, ONE, &[("c", &[])], &[("g", "a", 0), ("h", "c", 0)]),
        ],
    ),
];

/// A name, the given one where the text is `?`.
fn name_of(alloc: Global, text: &str, given: &str) -> Result<Name, Memory> {
    if text == "?" {
        Name::make(alloc, given)
    } else {
        Name::make(alloc, text)
    }
}

fn clps(alloc: Global, given: &str, rows: &[(&str, &str)]) -> Result<List<ClpPart>, Memory> {
    let mut parts = List::new(alloc);
    for (name, parent) in rows {
        let parent = if parent.is_empty() {
            None
        } else {
            Some(Name::make(alloc, parent)?)
        };
        let name = name_of(alloc, name, given)?;
        parts.push(ClpPart { name, parent })?;
    }
    Ok(parts)
}

fn vars(alloc: Global, given: &str, rows: &[(&str, &str)]) -> Result<List<VarPart>, Memory> {
    let mut parts = List::new(alloc);
    for (name, at) in rows {
        let name = name_of(alloc, name, given)?;
        let at = Name::make(alloc, at)?;
        let value = Value { x: 0, y: 0 };
        parts.push(VarPart { name, at, value })?;
    }
    Ok(parts)
}

/// The classes. More than ten thousand variables are refused, as a plan is made of few.
fn classes(alloc: Global, given: &str, rows: Classes) -> Result<List<ClassPart>, Memory>
    ensures { IfOk result (λ parts. length (all_vars parts) < 2 ^ 32) }
{
    let mut left = 10_000;
    let mut parts = List::new(alloc);
    for (name, members) in rows {
        let name = name_of(alloc, name, given)?;
        let vars = vars(alloc, given, members)?;
        if vars.len() > left {
            return Err(Memory);
        }
        left -= vars.len();
        parts.push(ClassPart { name, vars })?;
    }
    Ok(parts)
}

/// An agent with an empty rule.
#[tactic(auto, unfolding(pm_base::specs::Fits::fits, pm_base::specs::Fits::tree_fits))]
fn agent(alloc: Global, name: Name, home: &str, start: u64) -> Result<AgentPart, Memory>
    ensures { (layout : Layout) → IfOk result (λ part. fits part.program layout ≡ true) }
{
    let program = Program {
        regs: List::new(alloc),
        senses: List::new(alloc),
        body: List::new(alloc),
    };
    Ok(AgentPart {
        name,
        home: Name::make(alloc, home)?,
        start,
        program,
    })
}

fn agents(alloc: Global, given: &str, rows: Agents) -> Result<List<AgentPart>, Memory>
    ensures { (classes : Seq TheClass) → IfOk result (λ parts. rules_fit classes parts ≡ true) }
{
    let mut parts = List::new(alloc);
    for (name, home, start) in rows {
        let name = name_of(alloc, name, given)?;
        parts.push(agent(alloc, name, home, *start)?)?;
    }
    Ok(parts)
}

/// Why there is no plan of these parts.
fn refusal(alloc: Global, given: &str, sketch: &Sketch) -> Result<Option<PlanFault>, Memory> {
    let parts = PlanParts {
        horizon: sketch.0,
        move_after: 0,
        clps: clps(alloc, given, sketch.1)?,
        classes: classes(alloc, given, sketch.2)?,
        agents: agents(alloc, given, sketch.3)?,
    };
    match Plan::make(alloc, parts) {
        Ok(_) => Ok(None),
        Err(PlanFault::Memory) => Err(Memory),
        Err(fault) => Ok(Some(fault)),
    }
}

/// Why there is no plan of that many variables and agents, all of a kind with one name.
fn crowd(alloc: Global, vars: usize, agents: usize) -> Result<Option<PlanFault>, Memory> {
    let vars = vec![in alloc; ("v", "a"); vars]?;
    let agents = vec![in alloc; ("g", "a", 0); agents]?;
    let classes = [("c", vars.as_slice())];
    refusal(alloc, "", &Sketch(9, ONE, &classes, agents.as_slice()))
}

/// Whether each of the sketches gives that answer.
fn all_give(
    alloc: Global,
    given: &str,
    sketches: &[Sketch],
    want: Option<PlanFault>,
) -> Result<bool, Memory> {
    for sketch in sketches {
        if refusal(alloc, given, sketch)? != want {
            return Ok(false);
        }
    }
    Ok(true)
}

/// Whether each sketch gives the answer that stands with it.
fn are_right(alloc: Global, given: &str, rows: Refusals) -> Result<bool, Memory> {
    for (want, sketches) in rows {
        if !all_give(alloc, given, sketches, *want)? {
            return Ok(false);
        }
    }
    Ok(true)
}

#[test]
fn limits_are_refused_first(rt: HostRuntime) -> Result<(), Fail> {
    assert!(rt; are_right(rt.alloc(), "", LIMITS)?);
    for (vars, agents, want) in CROWDS {
        assert!(rt;
            crowd(rt.alloc(), *vars, *agents)? == Some(*want),
            "{vars} {agents}"
        );
    }
    Ok(())
}

#[test]
fn names_are_refused_by_kind_and_index(rt: HostRuntime) -> Result<(), Fail> {
    for name in WRONG {
        assert!(rt; are_right(rt.alloc(), name, NAMES)?, "{name}");
    }
    assert!(rt; are_right(rt.alloc(), "", REPEATS)?);
    Ok(())
}

#[test]
fn trees_are_refused_before_places(rt: HostRuntime) -> Result<(), Fail> {
    assert!(rt; are_right(rt.alloc(), "", TREES_AND_PLACES)?);
    Ok(())
}

/// A chain of that many processes.
fn chain(alloc: Global, count: u32) -> Result<List<ClpPart>, Memory> {
    let mut parts = List::new(alloc);
    let mut above = None;
    for i in 0..count {
        let text = format!(in alloc; "c{i}")?;
        let name = Name::make(alloc, text.as_str())?;
        let parent = above;
        above = Some(name.copy(alloc)?);
        parts.push(ClpPart { name, parent })?;
    }
    Ok(parts)
}

fn tree(alloc: Global, clps: List<ClpPart>) -> Result<Plan, PlanFault>
    ensures { IfOk result IsValid }
{
    let parts = PlanParts {
        horizon: 9,
        move_after: 0,
        clps,
        classes: List::new(alloc),
        agents: List::new(alloc),
    };
    Plan::make(alloc, parts)
}

/// Whether each way is as its row says: from, to, the next one, how many edges.
fn walks(plan: &Plan, rows: &[(u32, u32, u32, u32)]) -> bool
    requires { IsValid plan.now }
{
    let count = plan.clps.len();
    for (from, to, next, edges) in rows {
        if *from as usize >= count || *to as usize >= count || *from == *to {
            return false;
        }
        if plan.hop(*from, *to) != *next || plan.path_len(*from, *to) != *edges {
            return false;
        }
    }
    true
}

#[test]
fn ways_lead_along_a_line(rt: HostRuntime) -> Result<(), Fail> {
    let a = rt.alloc();
    let line = tree(a, chain(a, 64)?)?;
    assert!(rt;
        walks(
            &line,
            &[
                (0, 63, 1, 63),
                (63, 0, 62, 63),
                (1, 2, 2, 1),
                (2, 1, 1, 1),
                (3, 1, 2, 2)
            ]
        )
    );
    let long = tree(a, chain(a, 65)?);
    assert!(rt; matches!(long, Err(PlanFault::Limit { kind: Kind::Clp })));
    Ok(())
}

#[test]
fn ways_lead_through_the_middle_of_a_star(rt: HostRuntime) -> Result<(), Fail> {
    let a = rt.alloc();
    let star = tree(
        a,
        clps(a, "", &[("b", "a"), ("a", ""), ("c", "a"), ("d", "a")])?,
    )?;
    assert!(rt;
        walks(
            &star,
            &[
                (0, 2, 1, 2),
                (2, 0, 1, 2),
                (0, 1, 1, 1),
                (1, 3, 3, 1),
                (3, 2, 1, 2)
            ]
        )
    );
    Ok(())
}

#[test]
fn ways_lead_along_a_bush(rt: HostRuntime) -> Result<(), Fail> {
    let a = rt.alloc();
    let bush = tree(
        a,
        clps(
            a,
            "",
            &[
                ("a", ""),
                ("b", "a"),
                ("c", "a"),
                ("d", "b"),
                ("e", "b"),
                ("f", "c"),
                ("g", "f"),
            ],
        )?,
    )?;
    assert!(rt;
        walks(
            &bush,
            &[
                (3, 4, 1, 2),
                (4, 6, 1, 5),
                (6, 4, 5, 5),
                (0, 6, 2, 3),
                (1, 3, 3, 1),
                (5, 1, 2, 3),
                (1, 6, 0, 4)
            ]
        )
    );
    Ok(())
}
